//! What became of a case.

use crate::names::type_kind_name;
use crate::queries::{show_clauses, show_ends, show_within};
use case_names::sql_kind_name;
use case_text::{after, before, show_count, spelled};
use query_read::read_query;
use query_trees::Query;
use query_types::{TypeRefusal, type_query};
use sql_read::{SqlRefusal, read_schema};
use sql_types::Catalog;
use std::alloc::{AllocError, Global};
use typed_trees::TypedQuery;

/// What is shown of a typed query.
#[derive(Clone, Copy)]
enum Shown {
    /// Each clause.
    Whole,
    /// That it has types.
    Nothing,
    /// Whether the parts of its condition cannot leave 128 bits.
    Within,
    /// The least and the greatest that its items can be.
    Ends,
}

/// Takes the schema of a line that has one in the place of the one before.
pub fn schema_in(schema: &mut Vec<u8>, line: &[u8]) -> Result<(), AllocError> {
    if before(line, b' ') == b"schema".as_slice() {
        schema.clear();
        schema.extend_from_slice(after(line, b' '))?;
    }
    Ok(())
}

/// The answer to a line, indented; nothing where the line is no case.
pub fn answer(alloc: Global, schema: &[u8], line: &[u8]) -> Result<String, AllocError> {
    let mut out = String::new(alloc);
    match line {
        [] | [b'#', ..] => {}
        _ => show_case(
            &mut out,
            alloc,
            schema,
            before(line, b' '),
            after(line, b' '),
        )?,
    }
    Ok(out)
}

fn show_case(
    out: &mut String,
    alloc: Global,
    schema: &[u8],
    word: &[u8],
    case: &[u8],
) -> Result<(), AllocError> {
    let text = spelled(alloc, case)?;
    match word {
        b"schema" => Ok(()),
        b"typed" => show_over(out, alloc, schema, Shown::Whole, text.as_slice()),
        b"types" => show_over(out, alloc, schema, Shown::Nothing, text.as_slice()),
        b"within" => show_condition(out, alloc, schema, text.as_slice()),
        b"ends" => show_item(out, alloc, schema, text.as_slice()),
        _ => out.push_str("    no case\n"),
    }
}

fn show_condition(
    out: &mut String,
    alloc: Global,
    schema: &[u8],
    text: &[u8],
) -> Result<(), AllocError> {
    let mut whole = Vec::from_slice(alloc, b"SELECT a FROM t WHERE ")?;
    whole.extend_from_slice(text)?;
    show_over(out, alloc, schema, Shown::Within, whole.as_slice())
}

fn show_item(
    out: &mut String,
    alloc: Global,
    schema: &[u8],
    text: &[u8],
) -> Result<(), AllocError> {
    let mut whole = Vec::from_slice(alloc, b"SELECT ")?;
    whole.extend_from_slice(text)?;
    whole.extend_from_slice(b" FROM t")?;
    show_over(out, alloc, schema, Shown::Ends, whole.as_slice())
}

fn show_over(
    out: &mut String,
    alloc: Global,
    schema: &[u8],
    shown: Shown,
    text: &[u8],
) -> Result<(), AllocError> {
    if schema.len() > 1000 {
        return out.push_str("    a schema that is too long for a case\n");
    }
    match read_schema(alloc, schema) {
        Ok(defs) => match Catalog::new(defs) {
            Ok(catalog) => show_reading(out, alloc, &catalog, shown, text),
            Err(_) => out.push_str("    no catalog\n"),
        },
        Err(_) => out.push_str("    no schema\n"),
    }
}

fn show_reading(
    out: &mut String,
    alloc: Global,
    catalog: &Catalog,
    shown: Shown,
    text: &[u8],
) -> Result<(), AllocError> {
    if text.len() >= 4294967296 {
        return out.push_str("    too long\n");
    }
    match read_query(alloc, text) {
        Ok(q) => show_typing(out, alloc, catalog, shown, &q),
        Err(SqlRefusal::NoMemory) => out.push_str("    no memory\n"),
        Err(SqlRefusal::Bad { at, kind }) => show_kind_at(out, at, sql_kind_name(kind)),
    }
}

fn show_typing(
    out: &mut String,
    alloc: Global,
    catalog: &Catalog,
    shown: Shown,
    q: &Query,
) -> Result<(), AllocError> {
    match type_query(alloc, q, catalog) {
        Ok(q) => show_query(out, shown, &q),
        Err(TypeRefusal::NoMemory) => out.push_str("    no memory\n"),
        Err(TypeRefusal::Bad { at, kind }) => show_kind_at(out, at, type_kind_name(kind)),
    }
}

fn show_query(out: &mut String, shown: Shown, q: &TypedQuery) -> Result<(), AllocError> {
    match shown {
        Shown::Whole => show_clauses(out, q),
        Shown::Nothing => out.push_str("    typed\n"),
        Shown::Within => show_within(out, q),
        Shown::Ends => show_ends(out, q),
    }
}

/// The byte and the kind.
fn show_kind_at(out: &mut String, at: u32, kind: &str) -> Result<(), AllocError> {
    out.push_str("    ")?;
    show_count(out, at as u128)?;
    out.push(' ')?;
    out.push_str(kind)?;
    out.push('\n')?;
    Ok(())
}
