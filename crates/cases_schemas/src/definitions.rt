//! The definitions of a schema.

ghost use Rattle.std.specs.Prelude.{◌<◌, ◌^◌, length};

use crate::kinds::show_sql_refusal;
use case_names::column_kind_name;
use case_text::show_count;
use sql_read::{ColumnDef, KeyDef, TableDef, read_schema};
use std::alloc::{AllocError, Global};

/// A word and the byte at which it stands: `word@byte`.
fn show_at(out: &mut String, word: &str, at: u32) -> Result<(), AllocError> {
    out.push_str(word)?;
    out.push('@')?;
    show_count(out, at as u128)
}

/// A number and the byte at which it stands: ` number@byte`.
fn show_number_at(out: &mut String, number: u32, at: u32) -> Result<(), AllocError> {
    out.push(' ')?;
    show_count(out, number as u128)?;
    out.push('@')?;
    show_count(out, at as u128)
}

/// The column as `(name@byte kind width@byte scale@byte)`, with `not-null` behind where that is written.
fn show_column(out: &mut String, c: &ColumnDef) -> Result<(), AllocError> {
    out.push_str(" (")?;
    show_at(out, c.name.text(), c.at)?;
    out.push(' ')?;
    out.push_str(column_kind_name(c.kind))?;
    show_number_at(out, c.width, c.width_at)?;
    show_number_at(out, c.scale, c.scale_at)?;
    if c.not_null {
        out.push_str(" not-null")?;
    }
    out.push(')')?;
    Ok(())
}

/// The key as `(key@byte name@byte)`.
fn show_key(out: &mut String, k: &KeyDef) -> Result<(), AllocError> {
    out.push_str(" (")?;
    show_at(out, "key", k.at)?;
    out.push(' ')?;
    show_at(out, k.column.text(), k.name_at)?;
    out.push(')')?;
    Ok(())
}

fn show_table(out: &mut String, t: &TableDef) -> Result<(), AllocError> {
    out.push_str(" (")?;
    show_at(out, t.name.text(), t.at)?;
    for c in t.columns.as_slice() {
        show_column(out, c)?;
    }
    for k in t.keys.as_slice() {
        show_key(out, k)?;
    }
    out.push(')')?;
    Ok(())
}

fn show_tables(out: &mut String, defs: &[TableDef]) -> Result<(), AllocError> {
    out.push_str("schema:")?;
    for t in defs {
        show_table(out, t)?;
    }
    Ok(())
}

/// The definitions of a text, or its first refusal.
pub fn show_definitions(out: &mut String, alloc: Global, text: &[u8]) -> Result<(), AllocError>
    requires { length text.now < 2 ^ 32 }
{
    match read_schema(alloc, text) {
        Ok(defs) => show_tables(out, defs.as_slice()),
        Err(refusal) => show_sql_refusal(out, refusal),
    }
}

/// That a text is a schema, or its first refusal.
pub fn show_reading(out: &mut String, alloc: Global, text: &[u8]) -> Result<(), AllocError>
    requires { length text.now < 2 ^ 32 }
{
    match read_schema(alloc, text) {
        Ok(_) => out.push_str("read"),
        Err(refusal) => show_sql_refusal(out, refusal),
    }
}
