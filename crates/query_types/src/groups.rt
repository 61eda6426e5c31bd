//! The group columns.

ghost use Rattle.std.specs.Prelude.{◌≡◌, ◌≤◌, [], length, Ok};
ghost use Rattle.std.specs.List.{list_all, list_any};
ghost use Rattle.std.specs.Option.{option_copied};
ghost use Rattle.query_types.specs.Names.{IsNarrow};
ghost use Rattle.query_types.specs.Grouping as spec;
ghost use Rattle.query_types.specs.Outcomes.{Gives};

use crate::expr::{column_alone, has_aggregate};
use crate::names::resolved;
use crate::outcome::refusal;
use crate::refusal::{TypeKind, TypeRefusal};
use crate::scope::Called;
use crate::stars::{Starred, every_column};
use query_trees::{ColumnName, Query, SelectItem, SelectList};
use sql_read::{Listing, TableDef};
use std::alloc::Global;
use typed_trees::ColumnRef;

/// The columns of GROUP BY.
fn grouped_by(
    alloc: Global,
    defs: &[TableDef],
    tables: &[Called],
    columns: &[ColumnName],
) -> Result<Listing<ColumnRef>, TypeRefusal>
    requires narrow { IsNarrow defs.now }
    requires few { length tables.now ≤ 8 }
    ensures { Gives (spec.grouped_by defs.now tables.now [] columns.now) result }
{
    let mut groups = Listing::new(alloc);
    for c in columns {
        if groups.len() >= 4 {
            return Err(refusal(TypeKind::TooManyKeys, c.at));
        }
        let found = resolved(defs, tables, c)?;
        groups.push(found.column)?;
    }
    Ok(groups)
}

fn are_columns(items: &[SelectItem]) -> bool
    ensures { result ≡ list_all spec.is_column_item items.now }
{
    items.iter().all(|x| column_alone(&x.value).is_some())
}

fn column_of_item(
    defs: &[TableDef],
    tables: &[Called],
    x: &SelectItem,
    c: Option<&ColumnName>,
) -> Result<ColumnRef, TypeRefusal>
    requires narrow { IsNarrow defs.now }
    requires few { length tables.now ≤ 8 }
    ensures { Gives (spec.column_of_item defs.now tables.now x.now (option_copied c.entry)) result }
{
    match c {
        None => Err(refusal(TypeKind::UnknownColumn, x.value.at)),
        Some(c) => {
            let found = resolved(defs, tables, c)?;
            Ok(found.column)
        }
    }
}

/// The columns that items are.
fn selected(
    alloc: Global,
    defs: &[TableDef],
    tables: &[Called],
    items: &[SelectItem],
) -> Result<Listing<ColumnRef>, TypeRefusal>
    requires narrow { IsNarrow defs.now }
    requires few { length tables.now ≤ 8 }
    ensures { Gives (spec.selected defs.now tables.now [] items.now) result }
{
    let mut groups = Listing::new(alloc);
    for x in items {
        if groups.len() >= 4 {
            return Err(refusal(TypeKind::TooManyKeys, x.value.at));
        }
        let column = column_of_item(defs, tables, x, column_alone(&x.value))?;
        groups.push(column)?;
    }
    Ok(groups)
}

fn columns_starred(alloc: Global, all: &[Starred]) -> Result<Listing<ColumnRef>, TypeRefusal>
    ensures { Gives (Ok (spec.columns_starred all.now)) result }
{
    let mut columns = Listing::new(alloc);
    for f in all {
        columns.push(f.column)?;
    }
    Ok(columns)
}

/// What DISTINCT selects.
fn distinct(
    alloc: Global,
    defs: &[TableDef],
    tables: &[Called],
    at: u32,
    list: &SelectList,
) -> Result<Listing<ColumnRef>, TypeRefusal>
    requires narrow { IsNarrow defs.now }
    requires few { length tables.now ≤ 8 }
    ensures { Gives (spec.distinct defs.now tables.now at list.now) result }
{
    match list {
        SelectList::All(star) => {
            let all = every_column(alloc, defs, tables)?;
            if all.len() > 4 {
                return Err(refusal(TypeKind::TooManyKeys, *star));
            }
            columns_starred(alloc, all.as_slice())
        }
        SelectList::Items(items) => {
            if !are_columns(items.as_slice()) {
                return Err(refusal(TypeKind::NotColumns, at));
            }
            selected(alloc, defs, tables, items.as_slice())
        }
    }
}

fn is_written(columns: &[ColumnName]) -> bool
    ensures { result ≡ spec.is_written columns.now }
{
    match columns {
        [] => false,
        _ => true,
    }
}

/// The group columns of a query.
#[tactic(auto, unfolding(crate::specs::Grouping::groups_of))]
pub fn groups_of(
    alloc: Global,
    defs: &[TableDef],
    tables: &[Called],
    q: &Query,
) -> Result<Listing<ColumnRef>, TypeRefusal>
    requires narrow { IsNarrow defs.now }
    requires few { length tables.now ≤ 8 }
    ensures { Gives (spec.groups_of defs.now tables.now q.now) result }
{
    match q.distinct {
        None => grouped_by(alloc, defs, tables, q.groups.as_slice()),
        Some(at) => {
            if is_written(q.groups.as_slice()) {
                return Err(refusal(TypeKind::NotColumns, at));
            }
            distinct(alloc, defs, tables, at, &q.list)
        }
    }
}

fn any_aggregates(items: &[SelectItem]) -> bool
    ensures { result ≡ list_any spec.item_aggregates items.now }
{
    items.iter().any(|x| has_aggregate(&x.value))
}

fn aggregates(list: &SelectList) -> bool
    ensures { result ≡ spec.aggregates list.now }
{
    match list {
        SelectList::All(_) => false,
        SelectList::Items(items) => any_aggregates(items.as_slice()),
    }
}

/// Whether a query has GROUP BY, DISTINCT or an aggregate among its items.
#[tactic(auto, unfolding(crate::specs::Grouping::is_grouped))]
pub fn is_grouped(q: &Query) -> bool
    ensures { result ≡ spec.is_grouped q.now }
{
    is_written(q.groups.as_slice()) || (q.distinct.is_some() || aggregates(&q.list))
}
