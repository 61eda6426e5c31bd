//! A table as it is loaded.

use crate::held::HeldColumn;
use io_edge::Name;
use std::marker::Model;

/// The rows of a loaded table. Contracts see how many columns it has, and the list of its rows.
///
/// Each column is kept as whole numbers: decimals as their units, dates as day numbers, and texts as places in the list of the table's distinct texts.
#[derive(Drop)]
pub struct RawTable {
    pub(crate) columns: Vec<HeldColumn>,
    pub(crate) are_texts: Vec<bool>,
    pub(crate) texts: Vec<Name>,
    pub(crate) count: u32,
}

impl Model for RawTable {
    ghost use Rattle.std.specs.Prelude.{length};
    ghost use Rattle.table_load.specs.Values.{Table};
    ghost use Rattle.table_load.specs.HeldColumns.{rows_held, IsHeld};

    ghost Value = { Table };

    ghost view = { λ t. record {
      degree = length t.are_texts.items;
      rows = rows_held t.texts.items t.are_texts.items t.columns.items t.count;
    } };

    ghost invariant = { λ t. IsHeld t.texts.items t.are_texts.items t.columns.items t.count };
}
