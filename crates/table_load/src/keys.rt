//! Keys.

ghost use Rattle.std.specs.Prelude.{◌≡◌, ◌≤◌, ◌<◌, ℤ, length, IfSome, OnOk};
ghost use Rattle.std.specs.HashMap.{get};
ghost use Rattle.std.specs.Ordering.{int_eq};
ghost use Rattle.std.specs.List.{position_from};
ghost use Rattle.sql_types.specs.Catalog.{is_column_named};
ghost use Rattle.table_load.specs.Reading.{key_twice, noted_places};
ghost use Rattle.table_load.specs.Reading as reading;
ghost use Rattle.table_load.specs.Tables as spec;

use io_edge::NoMemory;
use sql_read::{ColumnDef, TableDef};
use std::alloc::AllocError;
use std::collections::HashMap;

/// The column that a table's key names, counted from 0.
pub fn key_place(def: &TableDef) -> Option<usize>
    ensures place { result ≡ spec.key_place def.now }
    ensures within { IfSome result (λ place. place < length def.now.columns) }
{
    match def.keys.as_slice().first() {
        None => None,
        Some(key) => named_column(def.columns.as_slice(), key.column.text()),
    }
}

/// The first column of that name, counted from 0.
fn named_column(columns: &[ColumnDef], name: &str) -> Option<usize>
    ensures place { result ≡ position_from (is_column_named name.now) 0 columns.now }
    ensures within { IfSome result (λ place. place < length columns.now) }
{
    for i in 0..columns.len() {
        if columns[i].name.text() == name {
            return Some(i);
        }
    }
    None
}

/// The number of a key's cell, unless it is empty.
fn key_cell(cells: &[Option<i64>], key: usize) -> Option<i64>
    ensures { result ≡ reading.key_cell key cells.now }
{
    match cells.get(key) {
        Some(cell) => *cell,
        None => None,
    }
}

/// Where a record's key stands in an earlier record: the key's column, counted from 1, and that record.
pub fn key_twice(
    key: Option<usize>,
    cells: &[Option<i64>],
    places: &HashMap<i64, u32>,
) -> Option<(u32, u32)>
    requires few { length cells.now ≤ 64 }
    ensures { result ≡ key_twice key (λ q. get int_eq places.now q) cells.now }
{
    let key = key?;
    let number = key_cell(cells, key)?;
    let earlier = places.get(&number).copied()?;
    Some((key as u32 + 1, earlier))
}

/// Notes the data record of a key, by its number.
pub fn note_key(
    places: &mut HashMap<i64, u32>,
    key: Option<usize>,
    cells: &[Option<i64>],
    row: u32,
) -> Result<(), NoMemory>
    ensures { OnOk result ((q : ℤ) → get int_eq places.new q ≡ noted_places key cells.now row (λ q. get int_eq places.old q) q) }
{
    let Some(key) = key else {
        return Ok(());
    };
    let Some(number) = key_cell(cells, key) else {
        return Ok(());
    };
    match places.insert(number, row) {
        Ok(_) => Ok(()),
        Err(_) => Err(AllocError),
    }
}
