//! What became of a case.

ghost use Rattle.std.specs.Prelude.{◌<◌, ◌^◌, length};

use crate::queries::{show_clauses, show_filter};
use case_names::sql_kind_name;
use case_text::{after, before, show_count, spelled};
use query_read::read_query;
use query_trees::Query;
use sql_read::SqlRefusal;
use std::alloc::{AllocError, Global};

/// What is shown of a query.
#[derive(Clone, Copy)]
enum Shown {
    /// Each clause.
    Whole,
    /// The condition of WHERE.
    Filter,
    /// That it is one.
    Nothing,
}

/// The answer to a line, indented; nothing where the line is no case.
pub fn answer(alloc: Global, line: &[u8]) -> Result<String, AllocError> {
    let mut out = String::new(alloc);
    match line {
        [] | [b'#', ..] => {}
        _ => show_case(&mut out, alloc, before(line, b' '), after(line, b' '))?,
    }
    Ok(out)
}

fn show_case(out: &mut String, alloc: Global, word: &[u8], case: &[u8]) -> Result<(), AllocError> {
    let text = spelled(alloc, case)?;
    match word {
        b"query" => show_reading(out, alloc, Shown::Whole, text.as_slice()),
        b"where" => show_condition(out, alloc, text.as_slice()),
        b"reads" => show_reading(out, alloc, Shown::Nothing, text.as_slice()),
        _ => out.push_str("    no case\n"),
    }
}

/// The condition, behind the query that it is one of.
fn show_condition(out: &mut String, alloc: Global, text: &[u8]) -> Result<(), AllocError> {
    let mut whole = Vec::from_slice(alloc, b"SELECT * FROM t WHERE ")?;
    whole.extend_from_slice(text)?;
    show_reading(out, alloc, Shown::Filter, whole.as_slice())
}

fn show_reading(
    out: &mut String,
    alloc: Global,
    shown: Shown,
    text: &[u8],
) -> Result<(), AllocError> {
    if text.len() >= 4294967296 {
        return out.push_str("    too long\n");
    }
    match read_query(alloc, text) {
        Ok(q) => show_query(out, shown, &q),
        Err(refusal) => show_refusal(out, refusal),
    }
}

fn show_query(out: &mut String, shown: Shown, q: &Query) -> Result<(), AllocError> {
    match shown {
        Shown::Whole => show_clauses(out, q),
        Shown::Filter => show_filter(out, q),
        Shown::Nothing => out.push_str("    read\n"),
    }
}

/// The byte and the kind.
fn show_refusal(out: &mut String, refusal: SqlRefusal) -> Result<(), AllocError> {
    out.push_str("    ")?;
    match refusal {
        SqlRefusal::NoMemory => out.push_str("no memory")?,
        SqlRefusal::Bad { at, kind } => {
            show_count(out, at as u128)?;
            out.push(' ')?;
            out.push_str(sql_kind_name(kind))?;
        }
    }
    out.push('\n')?;
    Ok(())
}
