//! The definitions of a schema, as they are written.

use crate::listing::Listing;
use io_edge::Name;

/// The kind of a column's values. `CHAR` and `VARCHAR` are one kind.
#[derive(Clone, Copy, PartialEq, Eq)]
pub enum ColumnKind {
    /// `INTEGER`, `INT` or `BIGINT`.
    Integer,
    /// `DATE`.
    Date,
    /// `CHAR` or `VARCHAR`.
    Text,
    /// `DECIMAL`: numbers with a fixed number of digits after the point.
    Decimal,
}

/// A column as it is written. Places are bytes of the text, counted from 0.
#[derive(Drop)]
pub struct ColumnDef {
    /// The name, folded to lower case.
    pub name: Name,
    /// The name's first byte.
    pub at: u32,
    pub kind: ColumnKind,
    /// The width of a text in bytes, or the precision of a decimal in digits, 2^32 - 1 for every greater number; 1 for a bare `CHAR`, 0 for every other kind.
    pub width: u32,
    /// The width's first byte; that of the type's word where no width is written.
    pub width_at: u32,
    /// How many of a decimal's digits stand after the point, 2^32 - 1 for every greater number; 0 where no scale is written.
    pub scale: u32,
    /// The scale's first byte; that of the type's word where no scale is written.
    pub scale_at: u32,
    /// Whether `NOT NULL` is written.
    pub not_null: bool,
}

/// A `PRIMARY KEY`, behind its column or as a part of its own.
#[derive(Drop)]
pub struct KeyDef {
    /// The name of the column, folded to lower case.
    pub column: Name,
    /// The first byte of `PRIMARY`.
    pub at: u32,
    /// The first byte of that name.
    pub name_at: u32,
}

/// A `CREATE TABLE` as it is written.
#[derive(Drop)]
pub struct TableDef {
    /// The name, folded to lower case.
    pub name: Name,
    /// The name's first byte.
    pub at: u32,
    /// The columns, in order.
    pub columns: Listing<ColumnDef>,
    /// The keys, in order.
    pub keys: Listing<KeyDef>,
}
