//! Leaving out the columns that nothing in a plan names.

ghost use Rattle.std.specs.Prelude.{◌≡◌, ◌≤◌, length, filter, IfOk, option_to_list};
ghost use Rattle.std.specs.List.{list_any, enumerate_from};
ghost use Rattle.rel_plan.specs.Plans.{expressions};
ghost use Rattle.rel_plan.specs.Prunes as spec;
ghost use Rattle.typed_trees.specs.Names.{names};

use crate::plans::RelPlan;
use io_edge::NoMemory;
use sql_read::Listing;
use std::alloc::Global;
use typed_trees::{
    Aggregate, ColumnRef, KeyRef, OrderKey, PlanSource, TypedExpr, Wanted, any_names, copied_all,
    names, same_column,
};

fn option_names(e: &Option<TypedExpr>, wanted: Wanted) -> bool
    ensures { result ≡ list_any (names wanted) (option_to_list e.now) }
{
    match e {
        None => false,
        Some(e) => names(e, wanted),
    }
}

fn conditions_name(sources: &[PlanSource], wanted: Wanted) -> bool
    ensures { result ≡ list_any (λ s. list_any (names wanted) s.filter) sources.now }
{
    sources
        .iter()
        .any(|s| any_names(s.filter.as_slice(), wanted))
}

fn arguments_name(aggregates: &[Aggregate], wanted: Wanted) -> bool
    ensures { result ≡ list_any (λ a. list_any (names wanted) (option_to_list a.argument)) aggregates.now }
{
    aggregates.iter().any(|a| option_names(&a.argument, wanted))
}

fn expressions_name(p: &RelPlan, wanted: Wanted) -> bool
    ensures { result ≡ list_any (names wanted) (expressions p.now) }
{
    any_names(p.filter.as_slice(), wanted)
        || conditions_name(p.sources.as_slice(), wanted)
        || arguments_name(p.aggregates.as_slice(), wanted)
        || option_names(&p.having, wanted)
        || any_names(p.items.as_slice(), wanted)
}

/// Whether the join that adds a source names a column: one to its left, or its own.
fn join_names(n: u32, s: &PlanSource, c: ColumnRef) -> bool
    ensures { result ≡ list_any (spec.same_column c) (spec.join_columns (n, s.now)) }
{
    match s.join {
        None => false,
        Some((left, own)) => {
            same_column(c, left)
                || same_column(
                    c,
                    ColumnRef {
                        source: n,
                        column: own,
                    },
                )
        }
    }
}

fn joins_name(sources: &[PlanSource], c: ColumnRef) -> bool
    requires { length sources.now ≤ 8 }
    ensures { result ≡ list_any (λ s. list_any (spec.same_column c) (spec.join_columns s)) (enumerate_from 0 sources.now) }
{
    for (n, s) in sources.iter().enumerate() {
        if join_names(n as u32, s, c) {
            return true;
        }
    }
    false
}

fn key_names(k: OrderKey, c: ColumnRef) -> bool
    ensures { result ≡ list_any (spec.same_column c) (spec.key_columns k) }
{
    match k.key {
        KeyRef::Item(_) => false,
        KeyRef::Column(key) => same_column(c, key),
    }
}

fn keys_name(order: &[OrderKey], c: ColumnRef) -> bool
    ensures { result ≡ list_any (λ k. list_any (spec.same_column c) (spec.key_columns k)) order.now }
{
    order.iter().any(|k| key_names(*k, c))
}

fn groups_name(groups: &[ColumnRef], c: ColumnRef) -> bool
    ensures { result ≡ list_any (spec.same_column c) groups.now }
{
    groups.iter().any(|g| same_column(c, *g))
}

/// Whether a join, a group or an order key names a column.
fn columns_name(p: &RelPlan, c: ColumnRef) -> bool
    requires { length p.now.sources ≤ 8 }
    ensures { result ≡ list_any (spec.same_column c) (spec.columns_named p.now) }
{
    joins_name(p.sources.as_slice(), c)
        || groups_name(p.groups.as_slice(), c)
        || keys_name(p.order.as_slice(), c)
}

/// Whether a plan names a column.
fn is_named(p: &RelPlan, c: ColumnRef) -> bool
    requires { length p.now.sources ≤ 8 }
    ensures { result ≡ spec.is_named p.now c }
{
    expressions_name(p, Wanted::Column(c)) || columns_name(p, c)
}

/// The columns of a source that the plan names.
fn named_columns(
    alloc: Global,
    p: &RelPlan,
    n: u32,
    columns: &[u32],
) -> Result<Listing<u32>, NoMemory>
    requires { length p.now.sources ≤ 8 }
    ensures { IfOk result (λ kept. kept ≡ filter (spec.is_named_at p.now n) columns.now) }
{
    let mut kept = Listing::new(alloc);
    for column in columns {
        let c = ColumnRef {
            source: n,
            column: *column,
        };
        if is_named(p, c) {
            kept.push(*column)?;
        }
    }
    Ok(kept)
}

fn pruned_source(alloc: Global, p: &RelPlan, n: u32, s: &PlanSource) -> Result<PlanSource, NoMemory>
    requires { length p.now.sources ≤ 8 }
    ensures { IfOk result (λ q. q ≡ spec.pruned_source p.now (n, s.now)) }
{
    let columns = named_columns(alloc, p, n, s.columns.as_slice())?;
    let filter = copied_all(alloc, s.filter.as_slice())?;
    Ok(PlanSource {
        table: s.table,
        columns,
        filter,
        join: s.join,
    })
}

fn pruned_sources(alloc: Global, p: &RelPlan) -> Result<Listing<PlanSource>, NoMemory>
    requires { length p.now.sources ≤ 8 }
    ensures { IfOk result (λ sources. sources ≡ spec.pruned_sources p.now) }
{
    let mut pruned = Listing::new(alloc);
    for (n, s) in p.sources.as_slice().iter().enumerate() {
        let source = pruned_source(alloc, p, n as u32, s)?;
        pruned.push(source)?;
    }
    Ok(pruned)
}

/// The plan without the columns that no expression, join, group or order key names. It fails only for want of memory.
#[tactic(auto, unfolding(crate::specs::Prunes::pruned))]
pub fn prune(alloc: Global, p: RelPlan) -> Result<RelPlan, NoMemory>
    requires { length p.sources ≤ 8 }
    ensures { IfOk result (λ q. q ≡ spec.pruned p) }
{
    let sources = pruned_sources(alloc, &p)?;
    let mut pruned = p;
    pruned.sources = sources;
    Ok(pruned)
}
