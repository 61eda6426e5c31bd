//! The catalog of a schema.

ghost use Rattle.std.specs.Prelude.{◌<◌, ◌^◌, length};

use crate::kinds::{show_schema_refusal, show_sql_refusal};
use sql_read::{TableDef, read_schema};
use sql_types::{Catalog, may_be_null};
use std::alloc::{AllocError, Global};

fn show_names(out: &mut String, defs: &[TableDef]) -> Result<(), AllocError> {
    out.push_str("catalog:")?;
    for t in defs {
        out.push(' ')?;
        out.push_str(t.name.text())?;
    }
    Ok(())
}

fn show_catalog_of(out: &mut String, defs: Vec<TableDef>) -> Result<(), AllocError> {
    match Catalog::new(defs) {
        Ok(catalog) => show_names(out, catalog.defs()),
        Err(refusal) => show_schema_refusal(out, refusal),
    }
}

/// The names of the tables of a schema's catalog, or what is wrong first.
pub fn show_catalog(out: &mut String, alloc: Global, text: &[u8]) -> Result<(), AllocError>
    requires { length text.now < 2 ^ 32 }
{
    match read_schema(alloc, text) {
        Ok(defs) => show_catalog_of(out, defs),
        Err(refusal) => show_sql_refusal(out, refusal),
    }
}

/// The columns of a table that may hold nulls, each as ` table.column`.
fn show_nullable_of(out: &mut String, t: &TableDef) -> Result<(), AllocError> {
    for c in t.columns.as_slice() {
        if may_be_null(t, c) {
            out.push(' ')?;
            out.push_str(t.name.text())?;
            out.push('.')?;
            out.push_str(c.name.text())?;
        }
    }
    Ok(())
}

fn show_all_nullable(out: &mut String, defs: &[TableDef]) -> Result<(), AllocError> {
    out.push_str("nullable:")?;
    for t in defs {
        show_nullable_of(out, t)?;
    }
    Ok(())
}

/// The columns of a schema that may hold nulls, also of one that is no catalog.
pub fn show_nullable(out: &mut String, alloc: Global, text: &[u8]) -> Result<(), AllocError>
    requires { length text.now < 2 ^ 32 }
{
    match read_schema(alloc, text) {
        Ok(defs) => show_all_nullable(out, defs.as_slice()),
        Err(refusal) => show_sql_refusal(out, refusal),
    }
}
