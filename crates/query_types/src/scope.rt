//! What names are looked up in.

use io_edge::Name;
use sql_read::TableDef;
use typed_trees::{ColumnRef, ColumnType};

/// A table of FROM, and the name by which it is called.
#[derive(Drop)]
pub struct Called {
    pub name: Name,
    /// The table's place in the catalog.
    pub table: u32,
}

/// A column that a name means, and its type.
#[derive(Clone, Copy)]
pub struct Found {
    pub column: ColumnRef,
    pub type_: ColumnType,
}

/// What an expression is evaluated on.
#[derive(Clone, Copy)]
pub enum Level {
    /// A row: all columns may stand, and no aggregate.
    Row,
    /// A group: aggregates and the group columns may stand.
    Group,
}

/// What an expression's names are looked up in.
#[derive(Clone, Copy)]
pub struct Scope<'a> {
    /// The tables of the catalog.
    pub defs: &'a [TableDef],
    /// The tables of FROM.
    pub tables: &'a [Called],
    pub level: Level,
    /// The group columns.
    pub groups: &'a [ColumnRef],
}
