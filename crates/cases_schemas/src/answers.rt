//! What became of a case.

ghost use Rattle.std.specs.Prelude.{◌<◌, ◌^◌, length};

use crate::catalogs::{show_catalog, show_nullable};
use crate::definitions::{show_definitions, show_reading};
use crate::tokens::{show_limited, show_listing};
use case_text::{after, before, spelled};
use std::alloc::{AllocError, Global};

/// The answer to a line, each of its lines indented; nothing where the line is no case.
pub fn answer(alloc: Global, line: &[u8]) -> Result<String, AllocError> {
    let mut out = String::new(alloc);
    match line {
        [] | [b'#', ..] => {}
        _ => {
            let text = spelled(alloc, after(line, b' '))?;
            show_case(&mut out, alloc, before(line, b' '), text.as_slice())?;
        }
    }
    Ok(out)
}

fn show_case(out: &mut String, alloc: Global, word: &[u8], text: &[u8]) -> Result<(), AllocError> {
    if text.len() >= 4294967296 {
        return out.push_str("    too long\n");
    }
    out.push_str("    ")?;
    show_answer(out, alloc, word, text)?;
    out.push('\n')?;
    Ok(())
}

fn show_answer(out: &mut String, alloc: Global, word: &[u8], text: &[u8]) -> Result<(), AllocError>
    requires { length text.now < 2 ^ 32 }
{
    match word {
        b"tokens" => show_limited(out, alloc, text),
        b"reads" => show_reading(out, alloc, text),
        b"schema" => show_definitions(out, alloc, text),
        b"catalog" => show_catalog(out, alloc, text),
        b"nullable" => show_nullable(out, alloc, text),
        b"listing" => show_listing(out, alloc, text),
        _ => out.push_str("no case"),
    }
}
