//! The tables of FROM.

ghost use Rattle.std.specs.Prelude.{◌≡◌, ◌≤◌, ◌<◌, [], length, slice_get, Ok, IfOk, OnOk};
ghost use Rattle.std.specs.List.{list_any, position_from, range_with_len};
ghost use Rattle.sql_types.specs.Catalog.{is_table_named, is_key_of};
ghost use Rattle.query_types.specs.Names.{IsNarrow};
ghost use Rattle.query_types.specs.Sources as spec;
ghost use Rattle.query_types.specs.Outcomes.{Gives};

use crate::kinds::{is_number, same_kind};
use crate::names::{columns_of, resolved};
use crate::outcome::refusal;
use crate::refusal::{TypeKind, TypeRefusal};
use crate::scope::{Called, Found};
use io_edge::Name;
use query_trees::{ColumnName, Join, JoinKind, Source, TableName};
use sql_read::{KeyDef, Listing, TableDef};
use std::alloc::Global;
use typed_trees::{ColumnRef, ColumnType, PlanSource, kind_of};

/// The tables of FROM: their names, and what they are.
pub struct Tables {
    pub called: Listing<Called>,
    pub sources: Listing<PlanSource>,
}

impl Drop for Tables {
    fn drop(self) {
        let Tables {
            called: _,
            sources: _,
        } = self;
    }
}

impl Tables {
    fn into_parts(self) -> (Listing<Called>, Listing<PlanSource>)
        ensures { result ≡ (self.called, self.sources) }
    {
        let Tables { called, sources } = self;
        (called, sources)
    }

    /// What the tables are.
    pub fn into_sources(self) -> Listing<PlanSource>
        ensures { result ≡ self.sources }
    {
        let Tables { called: _, sources } = self;
        sources
    }
}

fn call_name(t: &TableName) -> &Name
    ensures { result.now ≡ spec.call_name t.now }
{
    match &t.alias {
        Some(a) => &a.name,
        None => &t.name,
    }
}

fn call_at(t: &TableName) -> u32
    ensures { result ≡ spec.call_at t.now }
{
    match &t.alias {
        Some(a) => a.at,
        None => t.at,
    }
}

fn is_called(tables: &[Called], name: &str) -> bool
    ensures { result ≡ list_any (spec.is_called name.now) tables.now }
{
    tables.iter().any(|t| t.name.text() == name)
}

/// The place of the table of this name in the catalog.
fn table_named(defs: &[TableDef], name: &str) -> Option<u32>
    requires { IsNarrow defs.now }
    ensures { result ≡ position_from (is_table_named name.now) 0 defs.now }
{
    for (i, t) in defs.iter().enumerate() {
        if t.name.text() == name {
            return Some(i as u32);
        }
    }
    None
}

/// A table after those before it.
#[tactic(auto, unfolding(crate::specs::Sources::opened))]
fn opened(
    alloc: Global,
    defs: &[TableDef],
    tables: &[Called],
    t: &TableName,
) -> Result<Called, TypeRefusal>
    requires { IsNarrow defs.now }
    ensures given { Gives (spec.opened defs.now tables.now t.now) result }
    ensures few { OnOk result (length tables.now < 8) }
{
    if tables.len() >= 8 {
        return Err(refusal(TypeKind::TooManyTables, t.at));
    }
    let Some(table) = table_named(defs, t.name.text()) else {
        return Err(refusal(TypeKind::UnknownTable, t.at));
    };
    if is_called(tables, call_name(t).text()) {
        return Err(refusal(TypeKind::NameTwice, call_at(t)));
    }
    let name = call_name(t).copied(alloc)?;
    Ok(Called { name, table })
}

fn all_places(alloc: Global, n: usize) -> Result<Listing<u32>, TypeRefusal>
    requires { n ≤ 64 }
    ensures { Gives (Ok (range_with_len 0 n)) result }
{
    let mut places = Listing::new(alloc);
    for i in 0..n {
        places.push(i as u32)?;
    }
    Ok(places)
}

fn source_of(
    alloc: Global,
    defs: &[TableDef],
    table: u32,
    join: Option<(ColumnRef, u32)>,
) -> Result<PlanSource, TypeRefusal>
    requires { IsNarrow defs.now }
    ensures { Gives (Ok (spec.source_of defs.now table join)) result }
{
    let columns = all_places(alloc, columns_of(defs, table).len())?;
    Ok(PlanSource {
        table,
        columns,
        filter: Listing::new(alloc),
        join,
    })
}

fn keys_of(defs: &[TableDef], table: u32) -> &[KeyDef]
    ensures { result.now ≡ spec.keys_at (slice_get defs.now table) }
{
    match defs.get(table as usize) {
        None => &[],
        Some(t) => t.keys.as_slice(),
    }
}

fn is_key_name(keys: &[KeyDef], name: &str) -> bool
    ensures { result ≡ list_any (is_key_of name.now) keys.now }
{
    keys.iter().any(|k| k.column.text() == name)
}

fn is_key(defs: &[TableDef], table: u32, name: &str) -> bool
    ensures { result ≡ spec.is_key defs.now table name.now }
{
    is_key_name(keys_of(defs, table), name)
}

/// Whether two columns have one kind and, where they are numbers, one scale.
fn same_types(a: ColumnType, b: ColumnType) -> bool
    ensures { result ≡ spec.same_types a b }
{
    same_kind(kind_of(a.kind), kind_of(b.kind))
        && (!is_number(kind_of(a.kind)) || a.scale == b.scale)
}

#[tactic(auto, unfolding(crate::specs::Sources::linked))]
fn linked(
    defs: &[TableDef],
    table: u32,
    at: u32,
    own: Found,
    name: &ColumnName,
    left: Found,
) -> Result<Option<(ColumnRef, u32)>, TypeRefusal>
    ensures { Gives (spec.linked defs.now table at own name.now left) result }
{
    if !same_types(own.type_, left.type_) {
        return Err(refusal(TypeKind::TypesDiffer, at));
    }
    if !is_key(defs, table, name.name.text()) {
        return Err(refusal(TypeKind::NotAKey, name.at));
    }
    Ok(Some((left.column, own.column.column)))
}

/// A column of the added table and one of a table to its left, in either order.
#[tactic(auto, unfolding(crate::specs::Sources::paired))]
fn paired(
    defs: &[TableDef],
    s: u32,
    table: u32,
    on: (&ColumnName, u32, &ColumnName),
    x: Found,
    y: Found,
) -> Result<Option<(ColumnRef, u32)>, TypeRefusal>
    ensures { Gives (spec.paired defs.now s table on.entry.0.now on.entry.1 on.entry.2.now x y) result }
{
    let (a, at, b) = on;
    let x_is_own = x.column.source == s;
    let y_is_own = y.column.source == s;
    if x_is_own {
        if y_is_own {
            return Err(refusal(TypeKind::TypesDiffer, at));
        }
        return linked(defs, table, at, x, a, y);
    }
    if !y_is_own {
        return Err(refusal(TypeKind::TypesDiffer, at));
    }
    linked(defs, table, at, y, b, x)
}

#[tactic(auto, unfolding(crate::specs::Sources::linked_on))]
fn linked_on(
    defs: &[TableDef],
    tables: &[Called],
    s: u32,
    table: u32,
    on: (&ColumnName, u32, &ColumnName),
) -> Result<Option<(ColumnRef, u32)>, TypeRefusal>
    requires narrow { IsNarrow defs.now }
    requires few { length tables.now ≤ 8 }
    ensures { Gives (spec.linked_on defs.now tables.now s table on.entry.0.now on.entry.1 on.entry.2.now) result }
{
    let x = resolved(defs, tables, on.0)?;
    let y = resolved(defs, tables, on.2)?;
    paired(defs, s, table, on, x, y)
}

fn link(
    defs: &[TableDef],
    tables: &[Called],
    s: u32,
    table: u32,
    kind: &JoinKind,
) -> Result<Option<(ColumnRef, u32)>, TypeRefusal>
    requires narrow { IsNarrow defs.now }
    requires few { length tables.now ≤ 8 }
    ensures { Gives (spec.link defs.now tables.now s table kind.now) result }
{
    match kind {
        JoinKind::Cross => Ok(None),
        JoinKind::On(a, at, b) => linked_on(defs, tables, s, table, (a, *at, b)),
    }
}

#[tactic(auto, unfolding(crate::specs::Sources::with_join))]
fn with_join(
    alloc: Global,
    defs: &[TableDef],
    before: Tables,
    j: &Join,
) -> Result<Tables, TypeRefusal>
    requires { IsNarrow defs.now }
    ensures given { Gives (spec.with_join defs.now before j.now) result }
    ensures few { IfOk result (λ f. length f.called ≤ 8) }
{
    let (mut called, mut sources) = before.into_parts();
    let s = called.len();
    let t = opened(alloc, defs, called.as_slice(), &j.table)?;
    let table = t.table;
    called.push(t)?;
    let join = link(defs, called.as_slice(), s as u32, table, &j.kind)?;
    let source = source_of(alloc, defs, table, join)?;
    sources.push(source)?;
    Ok(Tables { called, sources })
}

#[tactic(auto, unfolding(crate::specs::Sources::first))]
fn first(alloc: Global, defs: &[TableDef], t: &TableName) -> Result<Tables, TypeRefusal>
    requires { IsNarrow defs.now }
    ensures given { Gives (spec.first defs.now t.now) result }
    ensures few { IfOk result (λ f. length f.called ≤ 8) }
{
    let t = opened(alloc, defs, &[], t)?;
    let source = source_of(alloc, defs, t.table, None)?;
    let mut called = Listing::new(alloc);
    called.push(t)?;
    let mut sources = Listing::new(alloc);
    sources.push(source)?;
    Ok(Tables { called, sources })
}

/// The tables of FROM, at most eight.
#[tactic(auto, unfolding(crate::specs::Sources::tables_of))]
pub fn tables_of(alloc: Global, defs: &[TableDef], s: &Source) -> Result<Tables, TypeRefusal>
    requires { IsNarrow defs.now }
    ensures given { Gives (spec.tables_of defs.now s.now) result }
    ensures few { IfOk result (λ f. length f.called ≤ 8) }
{
    let mut tables = first(alloc, defs, &s.first)?;
    for j in s.joins.as_slice() {
        tables = with_join(alloc, defs, tables, j)?;
    }
    Ok(tables)
}
