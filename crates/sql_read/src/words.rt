//! Names, taken from where they lie in the text.

ghost use Rattle.std.specs.Prelude.{◌≡◌, IfOk, string_bytes, take, flat_map, encode_utf8};
ghost use Rattle.std.specs.Char.{to_ascii_lowercase};
ghost use Rattle.sql_read.specs.Schema as spec;

use crate::token_list::Token;
use io_edge::Name;
use std::alloc::{AllocError, Global};

/// The bytes that a token takes.
pub fn extent(text: &[u8], t: Token) -> &[u8]
    ensures { result.now ≡ spec.extent text.now t }
{
    let from = text.len().min(t.at as usize);
    let rest = &text[from..];
    let len = rest.len().min(t.len as usize);
    &rest[..len]
}

/// The characters of a word in lower case.
fn lower_case(alloc: Global, word: &[u8]) -> Result<String, AllocError>
    ensures { IfOk result (λ s. string_bytes s ≡ flat_map (λ b. encode_utf8 (to_ascii_lowercase b)) word.now) }
{
    let mut name = String::with_capacity(alloc, word.len())?;
    for b in word {
        name.push((*b as char).to_ascii_lowercase())?;
    }
    Ok(name)
}

/// The name that stands at a token, folded to lower case.
pub fn name_at(alloc: Global, text: &[u8], t: Token) -> Result<Name, AllocError>
    ensures { IfOk result (λ n. n ≡ spec.name_at text.now t) }
{
    Ok(Name::from_string(lower_case(alloc, extent(text, t))?))
}
