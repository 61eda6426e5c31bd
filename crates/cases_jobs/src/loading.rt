//! Tables, loaded by their schema.

ghost use Rattle.std.specs.Prelude.{◌≡◌, ◌∷◌, [], length, map, IfOk};
ghost use Rattle.std.specs.List.{All};
ghost use Rattle.sql_read.specs.Forms.{IsFormed};
ghost use Rattle.sql_types.specs.Catalog.{findings};

use case_text::{show_bytes, show_count};
use data_make::made_schema;
use dict_codes::Dictionary;
use sql_read::{TableDef, read_schema};
use sql_types::Catalog;
use std::alloc::{AllocError, Global};
use table_load::{DataRefusal, Database, RawTable, finish, load};

/// How many rows a table has by the schema, and the texts of the dictionary, or what is refused.
pub fn show_loading(out: &mut String, alloc: Global, table: &[u8]) -> Result<(), AllocError> {
    match read_schema(alloc, made_schema()) {
        Ok(defs) => match Catalog::new(defs) {
            Ok(catalog) => show_table(out, alloc, catalog.defs(), table),
            Err(_) => out.push_str("no catalog"),
        },
        Err(_) => out.push_str("no schema"),
    }
}

fn show_table(
    out: &mut String,
    alloc: Global,
    defs: &[TableDef],
    table: &[u8],
) -> Result<(), AllocError>
    requires clean { findings defs.now ≡ [] }
    requires formed { All IsFormed defs.now }
{
    if defs.len() != 1 || 64 < defs[0].columns.len() {
        return out.push_str("not one table of at most 64 columns");
    }
    match load(alloc, &defs[0], table) {
        Ok(loaded) => {
            let data = finish(alloc, defs, listed(alloc, loaded)?)?;
            show_database(out, &data, &defs[0])
        }
        Err(DataRefusal::NoMemory) => out.push_str("no memory"),
        Err(DataRefusal::Bad { .. }) => out.push_str("refused"),
    }
}

/// One table as a list.
fn listed(alloc: Global, table: RawTable) -> Result<Vec<RawTable>, AllocError>
    ensures { IfOk result (λ v. v.items ≡ table ∷ []) }
{
    let mut tables = Vec::new(alloc);
    tables.push(table)?;
    Ok(tables)
}

fn show_database(out: &mut String, data: &Database, def: &TableDef) -> Result<(), AllocError> {
    match data.store().table(&def.name) {
        Some(vector) => show_count(out, vector.len() as u128)?,
        None => out.push_str("no")?,
    }
    out.push_str(" rows; texts")?;
    show_texts(out, data.dictionary())
}

fn show_texts(out: &mut String, texts: &Dictionary) -> Result<(), AllocError> {
    for code in 0..texts.len() {
        out.push(' ')?;
        show_bytes(out, texts.text(code).unwrap_or("").as_bytes())?;
    }
    Ok(())
}
