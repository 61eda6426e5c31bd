//! The clauses of queries as they are written.

use crate::expr::{ColumnName, Expr};
use io_edge::Name;
use sql_read::Listing;

/// Another name: `[AS] name`.
#[derive(Drop)]
pub struct Alias {
    /// The name, folded to lower case.
    pub name: Name,
    /// The name's first byte.
    pub at: u32,
}

/// An item of the select list: `expr [[AS] name]`.
#[derive(Drop)]
pub struct SelectItem {
    pub value: Expr,
    pub alias: Option<Alias>,
}

/// What is selected.
pub enum SelectList {
    /// `*`, and its byte.
    All(u32),
    /// At least one item.
    Items(Listing<SelectItem>),
}

impl Drop for SelectList {
    fn drop(self) {
        match self {
            SelectList::All(_) => {}
            SelectList::Items(_) => {}
        }
    }
}

/// A table of FROM: `name [[AS] name]`.
#[derive(Drop)]
pub struct TableName {
    /// The name, folded to lower case.
    pub name: Name,
    /// The name's first byte.
    pub at: u32,
    pub alias: Option<Alias>,
}

/// How a table is added to those before it.
#[derive(Drop)]
pub enum JoinKind {
    /// `,` or `CROSS JOIN`: each row with each.
    Cross,
    /// `[INNER] JOIN .. ON left = right`, and the first byte of the `=`.
    On(ColumnName, u32, ColumnName),
}

/// A table that is added.
pub struct Join {
    /// The first byte of the comma or of the first word.
    pub at: u32,
    pub table: TableName,
    pub kind: JoinKind,
}

impl Drop for Join {
    fn drop(self) {
        let Join {
            at: _,
            table: _,
            kind: _,
        } = self;
    }
}

/// The tables of FROM.
pub struct Source {
    pub first: TableName,
    /// Those that are added, in order.
    pub joins: Listing<Join>,
}

impl Drop for Source {
    fn drop(self) {
        let Source { first: _, joins: _ } = self;
    }
}

/// What a key of ORDER BY names.
#[derive(Drop)]
pub enum SortBy {
    /// An item by its place, a number of at most 2^127 - 1.
    Place(u128),
    Column(ColumnName),
}

/// The order of a key of ORDER BY.
#[derive(Clone, Copy)]
pub enum Direction {
    Ascending,
    Descending,
}

/// A key of ORDER BY.
#[derive(Drop)]
pub struct SortKey {
    /// The first byte of the whole.
    pub at: u32,
    pub by: SortBy,
    pub direction: Direction,
}
