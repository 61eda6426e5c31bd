//! What became of a case.

use crate::loading::show_loading;
use crate::sums::show_sum;
use case_text::{after, before, show_bytes};
use data_make::{made_query, made_schema, make_table};
use number_fields::integer_of;
use std::alloc::{AllocError, Global};

/// The answer to a line, indented; nothing where the line is no case.
pub fn answer(alloc: Global, line: &[u8]) -> Result<String, AllocError> {
    let mut out = String::new(alloc);
    match line {
        [] | [b'#', ..] => {}
        _ => show_case(&mut out, alloc, before(line, b' '), after(line, b' '))?,
    }
    Ok(out)
}

fn show_case(out: &mut String, alloc: Global, word: &[u8], text: &[u8]) -> Result<(), AllocError> {
    out.push_str("    ")?;
    match word {
        b"schema" => show_bytes(out, made_schema())?,
        b"query" => show_bytes(out, made_query())?,
        _ => show_job(
            out,
            alloc,
            word,
            number_in(before(text, b' ')),
            number_in(after(text, b' ')),
        )?,
    }
    out.push('\n')?;
    Ok(())
}

/// The number that a text spells, and 0 where it spells none.
fn number_in(text: &[u8]) -> i64 {
    integer_of(text).unwrap_or(0)
}

fn show_job(
    out: &mut String,
    alloc: Global,
    word: &[u8],
    seed: i64,
    rows: i64,
) -> Result<(), AllocError> {
    if seed < 0 || rows < 1 || 1_048_576 < rows {
        return out.push_str("no job");
    }
    let table = make_table(alloc, seed as u64, rows as u32)?;
    match word {
        b"table" => show_bytes(out, table.as_slice()),
        b"sum" => show_sum(out, table.as_slice()),
        b"loads" => show_loading(out, alloc, table.as_slice()),
        _ => out.push_str("no case"),
    }
}
