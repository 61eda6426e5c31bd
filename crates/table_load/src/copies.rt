//! Copies of definitions.

ghost use Rattle.std.specs.Prelude.{◌≡◌, IfOk};

use io_edge::NoMemory;
use sql_read::{ColumnDef, KeyDef, Listing, TableDef};
use std::alloc::Global;

/// The same definitions.
pub fn copied_definitions(alloc: Global, defs: &[TableDef]) -> Result<Vec<TableDef>, NoMemory>
    ensures { IfOk result (λ v. v.items ≡ defs.now) }
{
    let mut copies = Vec::with_capacity(alloc, defs.len())?;
    for def in defs {
        copies.push(copied_table(alloc, def)?)?;
    }
    Ok(copies)
}

fn copied_table(alloc: Global, def: &TableDef) -> Result<TableDef, NoMemory>
    ensures { IfOk result (λ d. d ≡ def.now) }
{
    Ok(TableDef {
        name: def.name.copied(alloc)?,
        at: def.at,
        columns: copied_columns(alloc, def.columns.as_slice())?,
        keys: copied_keys(alloc, def.keys.as_slice())?,
    })
}

fn copied_columns(alloc: Global, columns: &[ColumnDef]) -> Result<Listing<ColumnDef>, NoMemory>
    ensures { IfOk result (λ l. l ≡ columns.now) }
{
    let mut copies = Vec::with_capacity(alloc, columns.len())?;
    for column in columns {
        copies.push(copied_column(alloc, column)?)?;
    }
    Ok(Listing::from_vec(copies))
}

fn copied_column(alloc: Global, column: &ColumnDef) -> Result<ColumnDef, NoMemory>
    ensures { IfOk result (λ c. c ≡ column.now) }
{
    Ok(ColumnDef {
        name: column.name.copied(alloc)?,
        at: column.at,
        kind: column.kind,
        width: column.width,
        width_at: column.width_at,
        scale: column.scale,
        scale_at: column.scale_at,
        not_null: column.not_null,
    })
}

fn copied_keys(alloc: Global, keys: &[KeyDef]) -> Result<Listing<KeyDef>, NoMemory>
    ensures { IfOk result (λ l. l ≡ keys.now) }
{
    let mut copies = Vec::with_capacity(alloc, keys.len())?;
    for key in keys {
        copies.push(copied_key(alloc, key)?)?;
    }
    Ok(Listing::from_vec(copies))
}

fn copied_key(alloc: Global, key: &KeyDef) -> Result<KeyDef, NoMemory>
    ensures { IfOk result (λ k. k ≡ key.now) }
{
    Ok(KeyDef {
        column: key.column.copied(alloc)?,
        at: key.at,
        name_at: key.name_at,
    })
}
