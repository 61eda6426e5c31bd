//! Tables from the bytes of their files.

ghost use Rattle.std.specs.Prelude.{◌≡◌, ◌∷◌, [], length, map, IfOk};
ghost use Rattle.std.specs.List.{All};
ghost use Rattle.sql_read.specs.Forms.{IsFormed};
ghost use Rattle.sql_types.specs.Catalog.{findings};

use crate::databases::{show_columns, show_counts};
use crate::refusals::show_refusal;
use case_text::{after, before, spelled};
use sql_read::{TableDef, read_schema};
use sql_types::Catalog;
use std::alloc::{AllocError, Global};
use table_load::{Database, RawTable, finish, load};

/// What is shown of a database.
#[derive(Clone, Copy)]
pub enum Shown {
    /// The columns of each table, and the texts.
    Columns,
    /// How many rows each table has.
    Counts,
}

fn show_database(out: &mut String, shown: Shown, data: &Database) -> Result<(), AllocError> {
    match shown {
        Shown::Columns => show_columns(out, data),
        Shown::Counts => show_counts(out, data),
    }
}

/// The database of some files, one for each table of a schema, with a bar between them.
pub fn show_files(
    out: &mut String,
    alloc: Global,
    schema: &[u8],
    shown: Shown,
    files: &[u8],
) -> Result<(), AllocError> {
    if schema.len() > 1000 {
        return out.push_str("a schema that is too long for a case");
    }
    match read_schema(alloc, schema) {
        Ok(defs) => match Catalog::new(defs) {
            Ok(catalog) => show_tables(out, alloc, catalog.defs(), shown, files),
            Err(_) => out.push_str("no catalog"),
        },
        Err(_) => out.push_str("no schema"),
    }
}

fn show_tables(
    out: &mut String,
    alloc: Global,
    defs: &[TableDef],
    shown: Shown,
    files: &[u8],
) -> Result<(), AllocError>
    requires clean { findings defs.now ≡ [] }
    requires formed { All IsFormed defs.now }
{
    let first = spelled(alloc, before(files, b'|'))?;
    let second = spelled(alloc, after(files, b'|'))?;
    match defs.len() {
        1 => show_one(out, alloc, defs, shown, first.as_slice()),
        2 => show_two(out, alloc, defs, shown, first.as_slice(), second.as_slice()),
        _ => out.push_str("not one or two tables"),
    }
}

fn show_one(
    out: &mut String,
    alloc: Global,
    defs: &[TableDef],
    shown: Shown,
    bytes: &[u8],
) -> Result<(), AllocError>
    requires clean { findings defs.now ≡ [] }
    requires formed { All IsFormed defs.now }
    requires one { length defs.now ≡ 1 }
{
    if defs[0].columns.len() > 64 {
        return out.push_str("too wide");
    }
    match load(alloc, &defs[0], bytes) {
        Ok(table) => show_finished(out, alloc, defs, shown, listed(alloc, table)?),
        Err(refusal) => show_refusal(out, 1, refusal),
    }
}

fn show_two(
    out: &mut String,
    alloc: Global,
    defs: &[TableDef],
    shown: Shown,
    first: &[u8],
    second: &[u8],
) -> Result<(), AllocError>
    requires clean { findings defs.now ≡ [] }
    requires formed { All IsFormed defs.now }
    requires two { length defs.now ≡ 2 }
{
    if defs[0].columns.len() > 64 || defs[1].columns.len() > 64 {
        return out.push_str("too wide");
    }
    let one = match load(alloc, &defs[0], first) {
        Ok(table) => table,
        Err(refusal) => return show_refusal(out, 1, refusal),
    };
    match load(alloc, &defs[1], second) {
        Ok(other) => show_finished(out, alloc, defs, shown, both(alloc, one, other)?),
        Err(refusal) => show_refusal(out, 2, refusal),
    }
}

/// One table as a list.
fn listed(alloc: Global, table: RawTable) -> Result<Vec<RawTable>, AllocError>
    ensures { IfOk result (λ v. v.items ≡ table ∷ []) }
{
    let mut tables = Vec::new(alloc);
    tables.push(table)?;
    Ok(tables)
}

/// Two tables as a list.
fn both(alloc: Global, one: RawTable, other: RawTable) -> Result<Vec<RawTable>, AllocError>
    ensures { IfOk result (λ v. v.items ≡ one ∷ other ∷ []) }
{
    let mut tables = listed(alloc, one)?;
    tables.push(other)?;
    Ok(tables)
}

fn show_finished(
    out: &mut String,
    alloc: Global,
    defs: &[TableDef],
    shown: Shown,
    tables: Vec<RawTable>,
) -> Result<(), AllocError>
    requires clean { findings defs.now ≡ [] }
    requires formed { All IsFormed defs.now }
    requires loaded { map (λ t. t.degree) tables.items ≡ map (λ d. length d.columns) defs.now }
{
    let data = finish(alloc, defs, tables)?;
    show_database(out, shown, &data)
}
