//! Ordered dictionaries.

ghost use Rattle.std.specs.Prelude.{◌≡◌, ◌↔◌, ◌^◌, ◌<◌, ◌≤◌, length, slice_get, vec_len, ℕ, List, IfOk, Contains};
ghost use Rattle.std.specs.Option.{option_map};
ghost use Rattle.std.specs.List.{count_by};
ghost use Rattle.std.specs.List.Sorted.{IsPermutation, IsSorted};
ghost use Rattle.std.specs.Str.{bytes_eq};
ghost use Rattle.sql_values.specs.Texts.{by_bytes, is_below};
ghost use Rattle.dict_codes.specs.Dictionaries.{IsAscending, dictionary_of, rank_in, is_among};
ghost use Rattle.dict_codes.specs.Distinct.{is_new_text};

use io_edge::{Name, NoMemory};
use std::alloc::Global;
use std::marker::Model;

/// Distinct texts, ascending by bytes. The code of a text is its place among them, which is the number of texts below it:
/// so codes compare as their texts do. Contracts see the list of the texts.
#[derive(Drop)]
pub struct Dictionary {
    texts: Vec<Name>,
}

impl Model for Dictionary {
    ghost use Rattle.std.specs.Prelude.{List, ℕ, ◌<◌, ◌^◌, length};
    ghost use Rattle.dict_codes.specs.Dictionaries.{IsAscending};

    ghost Value = { List (List ℕ) };

    ghost view = { λ d. d.texts.items };

    ghost invariant = { λ d. IsAscending d.texts.items × (length d.texts.items < 2 ^ 32) };
}

impl Dictionary {
    /// The distinct ones of these texts, fewer than 2^32. It fails only for want of memory.
    pub fn from_texts(alloc: Global, texts: Vec<Name>) -> Result<Dictionary, NoMemory>
        requires { vec_len texts < 2 ^ 32 }
        ensures made { IfOk result (λ d. d ≡ dictionary_of texts.items) }
        ensures ascending { IfOk result IsAscending }
        ensures same { IfOk result (λ d. (text : List ℕ) → Contains d text ↔ Contains texts.items text) }
    {
        let mut texts = texts;
        sort(&mut texts);
        let texts = distinct(alloc, texts)?;
        Ok(Dictionary { texts })
    }

    /// How many texts are below `text`, by bytes, and whether it is one of them.
    pub fn rank(&self, text: &str) -> (u32, bool)
        ensures below { result.0 ≡ rank_in self.now text.now }
        ensures among { result.1 ≡ is_among self.now text.now }
        ensures within { result.0 ≤ length self.now }
        ensures ascending { IsAscending self.now }
    {
        let (at, is_among) = search(self.texts.as_slice(), text);
        (at as u32, is_among)
    }

    /// The text of a code, or `None` where the code is not below the number of texts.
    pub fn text(&self, code: u32) -> Option<&str>
        ensures text { option_map (λ text. text.now) result ≡ slice_get self.now code }
        ensures ascending { IsAscending self.now }
    {
        match self.texts.get(code as usize) {
            Some(text) => Some(text.text()),
            None => None,
        }
    }

    /// How many texts there are.
    pub fn len(&self) -> u32
        ensures len { result ≡ length self.now }
        ensures ascending { IsAscending self.now }
    {
        self.texts.len() as u32
    }
}

/// Sorts texts by their bytes.
fn sort(texts: &mut Vec<Name>)
    ensures same { IsPermutation texts.old.items texts.new.items }
    ensures sorted { IsSorted by_bytes texts.new.items }
{
    texts.sort_unstable_by(|a, b| a.text().cmp(b.text()));
}

/// Each of some sorted texts once.
fn distinct(alloc: Global, sorted: Vec<Name>) -> Result<Vec<Name>, NoMemory>
    requires { IsSorted by_bytes sorted.items }
    ensures ascending { IfOk result (λ v. IsAscending v.items) }
    ensures few { IfOk result (λ v. length v.items ≤ length sorted.items) }
    ensures same { IfOk result (λ v. (text : List ℕ) → Contains v.items text ↔ Contains sorted.items text) }
{
    let mut kept: Vec<Name> = Vec::new(alloc);
    'texts: for text in sorted {
        if is_new(kept.as_slice(), &text) {
            kept.push(text)?;
        }
    }
    Ok(kept)
}

/// Whether the last of some texts is another one.
fn is_new(kept: &[Name], text: &Name) -> bool
    ensures { result ≡ is_new_text kept.now text.now }
{
    match kept.last() {
        None => true,
        Some(last) => last.text() != text.text(),
    }
}

/// How many of some ascending texts are below a text, and whether it is one of them.
fn search(texts: &[Name], text: &str) -> (usize, bool)
    requires { IsAscending texts.now }
    ensures below { result.0 ≡ rank_in texts.now text.now }
    ensures among { result.1 ≡ is_among texts.now text.now }
    ensures within { result.0 ≤ length texts.now }
{
    match texts.binary_search_by(|t| t.text().cmp(text)) {
        Ok(at) => (at, true),
        Err(at) => (at, false),
    }
}
