//! Columns, cell by cell.

ghost use Rattle.std.specs.Prelude.{◌≡◌, length, map, IfOk, OnOk};
ghost use Rattle.table_load.specs.HeldColumns.{empty_columns, is_text_column, text_columns, with_cells};

use crate::held::HeldColumn;
use io_edge::NoMemory;
use sql_read::{ColumnDef, ColumnKind};
use std::alloc::Global;

/// Which columns are of texts.
pub fn text_columns(alloc: Global, columns: &[ColumnDef]) -> Result<Vec<bool>, NoMemory>
    ensures { IfOk result (λ v. v.items ≡ text_columns columns.now) }
{
    let mut are_texts = Vec::with_capacity(alloc, columns.len())?;
    for column in columns {
        are_texts.push(is_text(column))?;
    }
    Ok(are_texts)
}

fn is_text(column: &ColumnDef) -> bool
    ensures { result ≡ is_text_column column.now }
{
    column.kind == ColumnKind::Text
}

/// So many columns without a cell.
pub fn empty_columns(alloc: Global, count: usize) -> Result<Vec<HeldColumn>, NoMemory>
    ensures { IfOk result (λ v. v.items ≡ empty_columns count) }
{
    let mut columns = Vec::with_capacity(alloc, count)?;
    for _ in 0..count {
        columns.push(HeldColumn::new(alloc))?;
    }
    Ok(columns)
}

/// Adds a row: each cell at the end of its column.
pub fn push_row(columns: &mut Vec<HeldColumn>, cells: &[Option<i64>]) -> Result<(), NoMemory>
    ensures { OnOk result (columns.new.items ≡ with_cells columns.old.items cells.now) }
{
    for i in 0..columns.len() {
        if i < cells.len() {
            columns[i].push(cells[i])?;
        }
    }
    Ok(())
}
