//! The rules of a catalog, one by one: each adds its findings to the first so far.

ghost use Rattle.std.specs.Prelude.{◌≡◌, length};
ghost use Rattle.std.specs.List.{list_any};
ghost use Rattle.sql_types.specs.Catalog as spec;
ghost use Rattle.sql_types.specs.Findings.{first_from, noted};
ghost use Rattle.sql_types.specs.Widths.{is_bad_size, is_bad_scale, is_bad_width};

use crate::finding::{Finding, earlier, found, improves};
use crate::refusal::SchemaKind;
use sql_read::{ColumnDef, ColumnKind, KeyDef, TableDef};

fn has_table(tables: &[TableDef], name: &str) -> bool
    ensures { result ≡ list_any (spec.is_table_named name.now) tables.now }
{
    tables.iter().any(|t| t.name.text() == name)
}

fn has_column(columns: &[ColumnDef], name: &str) -> bool
    ensures { result ≡ list_any (spec.is_column_named name.now) columns.now }
{
    columns.iter().any(|c| c.name.text() == name)
}

// The names before are looked at only where the finding would be the first: so a schema of thousands of columns is refused in linear time.
fn with_table(first: Option<Finding>, before: &[TableDef], t: &TableDef) -> Option<Finding>
    ensures { result ≡ noted spec.is_later_table spec.table_twice first (before.now, t.now) }
{
    let q = found(SchemaKind::TableTwice, t.at);
    if improves(first, q) && has_table(before, t.name.text()) {
        Some(q)
    } else {
        first
    }
}

/// A table whose name an earlier one has.
pub fn tables_twice(first: Option<Finding>, defs: &[TableDef]) -> Option<Finding>
    ensures { result ≡ first_from first (spec.tables_twice defs.now) }
{
    let mut best = first;
    for i in 0..defs.len() {
        best = with_table(best, &defs[..i], &defs[i]);
    }
    best
}

fn with_column(first: Option<Finding>, before: &[ColumnDef], c: &ColumnDef) -> Option<Finding>
    ensures { result ≡ noted spec.is_later_column spec.column_twice first (before.now, c.now) }
{
    let q = found(SchemaKind::ColumnTwice, c.at);
    if improves(first, q) && has_column(before, c.name.text()) {
        Some(q)
    } else {
        first
    }
}

/// A column whose name an earlier one of its table has.
pub fn columns_twice(first: Option<Finding>, t: &TableDef) -> Option<Finding>
    ensures { result ≡ first_from first (spec.columns_twice t.now) }
{
    let columns = t.columns.as_slice();
    let mut best = first;
    for i in 0..columns.len() {
        best = with_column(best, &columns[..i], &columns[i]);
    }
    best
}

/// The second key of a table.
pub fn two_keys(first: Option<Finding>, t: &TableDef) -> Option<Finding>
    ensures { result ≡ first_from first (spec.two_keys t.now) }
{
    match t.keys.as_slice().get(1) {
        None => first,
        Some(k) => earlier(first, found(SchemaKind::TwoKeys, k.at)),
    }
}

fn with_key(first: Option<Finding>, t: &TableDef, k: &KeyDef) -> Option<Finding>
    ensures { result ≡ noted (spec.is_unknown t.now) spec.key_unknown first k.now }
{
    let q = found(SchemaKind::KeyUnknown, k.name_at);
    if improves(first, q) && !has_column(t.columns.as_slice(), k.column.text()) {
        Some(q)
    } else {
        first
    }
}

/// A key whose name is no column.
pub fn keys_unknown(first: Option<Finding>, t: &TableDef) -> Option<Finding>
    ensures { result ≡ first_from first (spec.keys_unknown t.now) }
{
    let mut best = first;
    for k in t.keys.as_slice() {
        best = with_key(best, t, k);
    }
    best
}

fn is_bad_size(c: &ColumnDef) -> bool
    ensures { result ≡ is_bad_size c.now.kind c.now.width }
{
    match c.kind {
        ColumnKind::Text => c.width < 1 || c.width > 255,
        ColumnKind::Decimal => c.width < 1 || c.width > 18,
        ColumnKind::Integer | ColumnKind::Date => false,
    }
}

fn is_bad_scale(c: &ColumnDef) -> bool
    ensures { result ≡ is_bad_scale c.now.kind c.now.width c.now.scale }
{
    c.kind == ColumnKind::Decimal && c.scale > c.width
}

fn with_width(first: Option<Finding>, c: &ColumnDef) -> Option<Finding>
    ensures { result ≡ noted is_bad_width spec.bad_width first c.now }
{
    if is_bad_size(c) {
        earlier(first, found(SchemaKind::BadWidth, c.width_at))
    } else if is_bad_scale(c) {
        earlier(first, found(SchemaKind::BadWidth, c.scale_at))
    } else {
        first
    }
}

/// A number of a column's type that is out of range.
pub fn bad_widths(first: Option<Finding>, t: &TableDef) -> Option<Finding>
    ensures { result ≡ first_from first (spec.bad_widths t.now) }
{
    let mut best = first;
    for c in t.columns.as_slice() {
        best = with_width(best, c);
    }
    best
}

/// The 17th table.
pub fn too_many_tables(first: Option<Finding>, defs: &[TableDef]) -> Option<Finding>
    ensures { result ≡ first_from first (spec.too_many_tables defs.now) }
{
    match defs.get(16) {
        None => first,
        Some(t) => earlier(first, found(SchemaKind::TooManyTables, t.at)),
    }
}

/// The 65th column.
pub fn too_many_columns(first: Option<Finding>, t: &TableDef) -> Option<Finding>
    ensures { result ≡ first_from first (spec.too_many_columns t.now) }
{
    match t.columns.as_slice().get(64) {
        None => first,
        Some(c) => earlier(first, found(SchemaKind::TooManyColumns, c.at)),
    }
}
