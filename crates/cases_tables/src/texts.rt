//! Dictionaries of a few texts.

use crate::databases::show_dictionary;
use case_text::{after, before, first_number, show_bytes, show_count, spelled};
use dict_codes::Dictionary;
use io_edge::Name;
use std::alloc::{AllocError, Global};

/// The text that a case spells, where it is UTF-8; else none.
fn name_of(alloc: Global, text: &[u8]) -> Result<Name, AllocError> {
    let bytes = spelled(alloc, text)?;
    match str::from_utf8(bytes.as_slice()) {
        Ok(text) => Name::of(alloc, text),
        Err(_) => Name::of(alloc, ""),
    }
}

/// The texts between commas, of which a case has at most 1,000; none of an empty text.
fn names_of(alloc: Global, list: &[u8]) -> Result<Vec<Name>, AllocError> {
    let mut names = Vec::new(alloc);
    let mut rest = list;
    for _ in 0..1000 {
        if rest.is_empty() {
            return Ok(names);
        }
        names.push(name_of(alloc, before(rest, b','))?)?;
        rest = after(rest, b',');
    }
    Ok(names)
}

fn dictionary_of(alloc: Global, list: &[u8]) -> Result<Dictionary, AllocError> {
    let names = names_of(alloc, list)?;
    if names.len() > 1000 {
        return Dictionary::from_texts(alloc, Vec::new(alloc));
    }
    Dictionary::from_texts(alloc, names)
}

/// The texts of a dictionary by their codes.
pub fn show_codes(out: &mut String, alloc: Global, list: &[u8]) -> Result<(), AllocError> {
    let texts = dictionary_of(alloc, list)?;
    show_dictionary(out, &texts)
}

/// How many texts of a dictionary are below a text, and whether it is one of them.
pub fn show_rank(
    out: &mut String,
    alloc: Global,
    list: &[u8],
    text: &[u8],
) -> Result<(), AllocError> {
    let texts = dictionary_of(alloc, list)?;
    let name = name_of(alloc, text)?;
    let (below, is_among) = texts.rank(name.text());
    show_count(out, below as u128)?;
    out.push_str(if is_among { " among" } else { " not among" })
}

/// The text of a code.
pub fn show_text(
    out: &mut String,
    alloc: Global,
    list: &[u8],
    code: &[u8],
) -> Result<(), AllocError> {
    let texts = dictionary_of(alloc, list)?;
    match texts.text(first_number(code) as u32) {
        Some(text) => show_bytes(out, text.as_bytes()),
        None => out.push_str("none"),
    }
}
