//! Moving conditions to the tables whose rows alone they test.

ghost use Rattle.std.specs.Prelude.{◌≡◌, ◌≤◌, length, filter, IfOk};
ghost use Rattle.std.specs.List.{list_all};
ghost use Rattle.rel_plan.specs.Pushes as spec;
ghost use Rattle.typed_values.specs.Bounds as rule;

use crate::plans::RelPlan;
use io_edge::NoMemory;
use sql_read::Listing;
use std::alloc::Global;
use typed_trees::{PlanSource, TypedExpr, Wanted, copied, copied_source, names};
use typed_values::cannot_overflow;

/// Of how many of so many sources an expression names columns.
fn sources_named(e: &TypedExpr, count: u32) -> u32
    ensures { result ≡ spec.sources_named count e.now }
{
    let mut named = 0;
    for n in 0..count {
        if names(e, Wanted::ColumnOf(n)) {
            named += 1;
        }
    }
    named
}

fn is_of_one_source(e: &TypedExpr, count: u32) -> bool
    ensures { result ≡ spec.is_of_one_source count e.now }
{
    sources_named(e, count) == 1
}

fn moves_to(e: &TypedExpr, n: u32, count: u32) -> bool
    ensures { result ≡ spec.moves_to count n e.now }
{
    names(e, Wanted::ColumnOf(n)) && is_of_one_source(e, count)
}

/// The parts that stay, in order.
fn staying(alloc: Global, parts: &[TypedExpr], count: u32) -> Result<Listing<TypedExpr>, NoMemory>
    ensures { IfOk result (λ kept. kept ≡ filter (spec.stays count) parts.now) }
{
    let mut kept = Listing::new(alloc);
    for e in parts {
        if !is_of_one_source(e, count) {
            kept.push(copied(alloc, e)?)?;
        }
    }
    Ok(kept)
}

/// A source with the parts that move to it behind those that stand there.
fn with_moved(
    alloc: Global,
    s: &PlanSource,
    parts: &[TypedExpr],
    n: u32,
    count: u32,
) -> Result<PlanSource, NoMemory>
    ensures { IfOk result (λ q. q ≡ spec.with_moved count parts.now (n, s.now)) }
{
    let mut source = copied_source(alloc, s)?;
    for e in parts {
        if moves_to(e, n, count) {
            source.filter.push(copied(alloc, e)?)?;
        }
    }
    Ok(source)
}

fn pushed_sources(
    alloc: Global,
    sources: &[PlanSource],
    parts: &[TypedExpr],
) -> Result<Listing<PlanSource>, NoMemory>
    requires { length sources.now ≤ 8 }
    ensures { IfOk result (λ pushed. pushed ≡ spec.pushed_sources parts.now sources.now) }
{
    let count = sources.len() as u32;
    let mut pushed = Listing::new(alloc);
    for (n, s) in sources.iter().enumerate() {
        let source = with_moved(alloc, s, parts, n as u32, count)?;
        pushed.push(source)?;
    }
    Ok(pushed)
}

fn none_can_overflow(parts: &[TypedExpr]) -> bool
    ensures { result ≡ list_all rule.cannot_overflow parts.now }
{
    parts.iter().all(|e| cannot_overflow(e))
}

/// The plan with each part of its filter that names columns of one source alone moved to that source, where no part can overflow; else the plan as
/// it is. It fails only for want of memory.
#[tactic(auto, unfolding(crate::specs::Pushes::pushed))]
pub fn push_filters(alloc: Global, p: RelPlan) -> Result<RelPlan, NoMemory>
    requires { length p.sources ≤ 8 }
    ensures { IfOk result (λ q. q ≡ spec.pushed p) }
{
    if !none_can_overflow(p.filter.as_slice()) {
        return Ok(p);
    }
    let sources = pushed_sources(alloc, p.sources.as_slice(), p.filter.as_slice())?;
    let filter = staying(alloc, p.filter.as_slice(), p.sources.len() as u32)?;
    let mut pushed = p;
    pushed.sources = sources;
    pushed.filter = filter;
    Ok(pushed)
}
