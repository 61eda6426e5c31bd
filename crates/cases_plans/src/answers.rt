//! What became of a case.

use crate::plans::show_plans;
use case_text::{after, before, spelled};
use query_read::read_query;
use query_trees::Query;
use query_types::type_query;
use sql_read::read_schema;
use sql_types::Catalog;
use std::alloc::{AllocError, Global};

/// Takes the schema of a line that has one in the place of the one before.
pub fn schema_in(schema: &mut Vec<u8>, line: &[u8]) -> Result<(), AllocError> {
    if before(line, b' ') == b"schema".as_slice() {
        schema.clear();
        schema.extend_from_slice(after(line, b' '))?;
    }
    Ok(())
}

/// The answer to a line, indented; nothing where the line is no case.
pub fn answer(alloc: Global, schema: &[u8], line: &[u8]) -> Result<String, AllocError> {
    let mut out = String::new(alloc);
    match line {
        [] | [b'#', ..] => {}
        _ => show_case(
            &mut out,
            alloc,
            schema,
            before(line, b' '),
            after(line, b' '),
        )?,
    }
    Ok(out)
}

fn show_case(
    out: &mut String,
    alloc: Global,
    schema: &[u8],
    word: &[u8],
    case: &[u8],
) -> Result<(), AllocError> {
    let text = spelled(alloc, case)?;
    match word {
        b"schema" => Ok(()),
        b"plan" => show_over(out, alloc, schema, text.as_slice()),
        _ => out.push_str("    no case\n"),
    }
}

fn show_over(
    out: &mut String,
    alloc: Global,
    schema: &[u8],
    text: &[u8],
) -> Result<(), AllocError> {
    if schema.len() > 1000 {
        return out.push_str("    a schema that is too long for a case\n");
    }
    match read_schema(alloc, schema) {
        Ok(defs) => match Catalog::new(defs) {
            Ok(catalog) => show_reading(out, alloc, &catalog, text),
            Err(_) => out.push_str("    no catalog\n"),
        },
        Err(_) => out.push_str("    no schema\n"),
    }
}

fn show_reading(
    out: &mut String,
    alloc: Global,
    catalog: &Catalog,
    text: &[u8],
) -> Result<(), AllocError> {
    if text.len() >= 4294967296 {
        return out.push_str("    too long\n");
    }
    match read_query(alloc, text) {
        Ok(q) => show_typing(out, alloc, catalog, &q),
        Err(_) => out.push_str("    no query\n"),
    }
}

fn show_typing(
    out: &mut String,
    alloc: Global,
    catalog: &Catalog,
    q: &Query,
) -> Result<(), AllocError> {
    match type_query(alloc, q, catalog) {
        Ok(q) => show_plans(out, alloc, &q),
        Err(_) => out.push_str("    no typed query\n"),
    }
}
