//! Columns by their names.

ghost use Rattle.std.specs.Prelude.{◌≡◌, ◌≤◌, ℕ, length, Option, Some, None};
ghost use Rattle.query_types.specs.Names as spec;
ghost use Rattle.query_types.specs.Outcomes.{Gives};

use crate::outcome::refusal;
use crate::refusal::{TypeKind, TypeRefusal};
use crate::scope::{Called, Found, Level, Scope};
use query_trees::ColumnName;
use sql_read::{ColumnDef, TableDef};
use typed_trees::{ColumnRef, ColumnType, same_column};

/// The columns of the table at this place of the catalog.
pub fn columns_of(defs: &[TableDef], table: u32) -> &[ColumnDef]
    requires { spec.IsNarrow defs.now }
    ensures value { result.now ≡ spec.columns_of defs.now table }
    ensures few { length result.now ≤ 64 }
{
    match defs.get(table as usize) {
        None => &[],
        Some(t) => t.columns.as_slice(),
    }
}

/// The type that a definition gives its column.
pub fn type_of_column(c: &ColumnDef) -> ColumnType
    ensures { result ≡ spec.type_of_column c.now }
{
    ColumnType {
        kind: c.kind,
        width: c.width,
        scale: c.scale,
    }
}

/// The column of this name among those of a source.
fn in_columns(columns: &[ColumnDef], source: u32, name: &str) -> Option<Found>
    requires { length columns.now ≤ 64 }
    ensures { result ≡ spec.in_columns name.now source 0 columns.now }
{
    for (i, c) in columns.iter().enumerate() {
        if c.name.text() == name {
            return Some(Found {
                column: ColumnRef {
                    source,
                    column: i as u32,
                },
                type_: type_of_column(c),
            });
        }
    }
    None
}

#[tactic(auto, unfolding(crate::specs::Names::column_in))]
fn column_in(defs: &[TableDef], source: u32, t: &Called, name: &str) -> Option<Found>
    requires { spec.IsNarrow defs.now }
    ensures { result ≡ spec.column_in defs.now name.now source t.now }
{
    in_columns(columns_of(defs, t.table), source, name)
}

/// The only column of this name.
#[tactic(auto, unfolding(crate::specs::Names::bare))]
fn bare(defs: &[TableDef], tables: &[Called], name: &str, at: u32) -> Result<Found, TypeRefusal>
    requires narrow { spec.IsNarrow defs.now }
    requires few { length tables.now ≤ 8 }
    ensures { Gives (spec.bare defs.now tables.now name.now at) result }
{
    let mut only = None;
    for (s, t) in tables.iter().enumerate() {
        if let Some(found) = column_in(defs, s as u32, t, name) {
            if only.is_some() {
                return Err(refusal(TypeKind::Ambiguous, at));
            }
            only = Some(found);
        }
    }
    match only {
        Some(found) => Ok(found),
        None => Err(refusal(TypeKind::UnknownColumn, at)),
    }
}

/// The column of the table that is called so.
#[tactic(auto, unfolding(crate::specs::Names::qualified))]
fn qualified(
    defs: &[TableDef],
    tables: &[Called],
    c: &ColumnName,
    table: &str,
) -> Result<Found, TypeRefusal>
    requires narrow { spec.IsNarrow defs.now }
    requires few { length tables.now ≤ 8 }
    ensures { Gives (spec.qualified defs.now tables.now c.now table.now) result }
{
    for (s, t) in tables.iter().enumerate() {
        if t.name.text() == table {
            return match column_in(defs, s as u32, t, c.name.text()) {
                Some(found) => Ok(found),
                None => Err(refusal(TypeKind::UnknownColumn, c.name_at)),
            };
        }
    }
    Err(refusal(TypeKind::UnknownTable, c.at))
}

/// The column of FROM that a name means.
#[tactic(auto, unfolding(crate::specs::Names::resolved))]
pub fn resolved(defs: &[TableDef], tables: &[Called], c: &ColumnName) -> Result<Found, TypeRefusal>
    requires narrow { spec.IsNarrow defs.now }
    requires few { length tables.now ≤ 8 }
    ensures { Gives (spec.resolved defs.now tables.now c.now) result }
{
    match &c.table {
        None => bare(defs, tables, c.name.text(), c.name_at),
        Some(table) => qualified(defs, tables, c, table.text()),
    }
}

fn is_group_column(groups: &[ColumnRef], a: ColumnRef) -> bool
    ensures { result ≡ spec.is_group_column groups.now a }
{
    groups.iter().any(|g| same_column(*g, a))
}

fn may_stand(level: Level, groups: &[ColumnRef], a: ColumnRef) -> bool
    ensures { result ≡ spec.may_stand level groups.now a }
{
    match level {
        Level::Row => true,
        Level::Group => is_group_column(groups, a),
    }
}

/// A column, which on a group has to be a group column.
#[tactic(auto, unfolding(crate::specs::Names::standing))]
pub fn standing(scope: &Scope<'_>, at: u32, found: Found) -> Result<Found, TypeRefusal>
    ensures { Gives (spec.standing (spec.seen scope.now) at found) result }
{
    if may_stand(scope.level, scope.groups, found.column) {
        Ok(found)
    } else {
        Err(refusal(TypeKind::NotGrouped, at))
    }
}

/// A column by its name.
#[tactic(auto, unfolding(crate::specs::Names::column))]
pub fn column(scope: &Scope<'_>, c: &ColumnName) -> Result<Found, TypeRefusal>
    requires narrow { spec.IsNarrow scope.now.defs.now }
    requires few { length scope.now.tables.now ≤ 8 }
    ensures { Gives (spec.column (spec.seen scope.now) c.now) result }
{
    let found = resolved(scope.defs, scope.tables, c)?;
    standing(scope, c.at, found)
}
