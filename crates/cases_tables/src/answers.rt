//! What became of a case.

use crate::loading::{Shown, show_files};
use crate::texts::{show_codes, show_rank, show_text};
use case_text::{after, before};
use std::alloc::{AllocError, Global};

/// Takes the schema of a line that has one in the place of the one before.
pub fn schema_in(schema: &mut Vec<u8>, line: &[u8]) -> Result<(), AllocError> {
    if before(line, b' ') == b"schema".as_slice() {
        schema.clear();
        schema.extend_from_slice(after(line, b' '))?;
    }
    Ok(())
}

/// The answer to a line, indented; nothing where the line is no case.
pub fn answer(alloc: Global, schema: &[u8], line: &[u8]) -> Result<String, AllocError> {
    let mut out = String::new(alloc);
    match line {
        [] | [b'#', ..] => {}
        _ => show_case(
            &mut out,
            alloc,
            schema,
            before(line, b' '),
            after(line, b' '),
        )?,
    }
    Ok(out)
}

fn show_case(
    out: &mut String,
    alloc: Global,
    schema: &[u8],
    word: &[u8],
    text: &[u8],
) -> Result<(), AllocError> {
    match word {
        b"schema" => Ok(()),
        _ => {
            out.push_str("    ")?;
            show_answer(out, alloc, schema, word, text)?;
            out.push('\n')?;
            Ok(())
        }
    }
}

fn show_answer(
    out: &mut String,
    alloc: Global,
    schema: &[u8],
    word: &[u8],
    text: &[u8],
) -> Result<(), AllocError> {
    match word {
        b"tables" => show_files(out, alloc, schema, Shown::Columns, text),
        b"rows" => show_files(out, alloc, schema, Shown::Counts, text),
        b"codes" => show_codes(out, alloc, text),
        b"rank" => show_rank(out, alloc, before(text, b'|'), after(text, b'|')),
        b"text" => show_text(out, alloc, before(text, b'|'), after(text, b'|')),
        _ => out.push_str("no case"),
    }
}
