//! Plans, and the plan of a query.

ghost use Rattle.std.specs.Prelude.{◌≡◌, IfOk};
ghost use Rattle.rel_plan.specs.Plans as spec;

use io_edge::NoMemory;
use sql_read::Listing;
use std::alloc::Global;
use typed_trees::{
    Aggregate, ColumnRef, OrderKey, PlanSource, TypedExpr, TypedQuery, copied_aggregates,
    copied_all, copied_option, copied_plain, copied_sources,
};

/// The parts of a query. Its answer is that of a query with these parts, where of each table only those rows count for which every part of
/// its source's `filter` is true.
pub struct RelPlan {
    /// The tables of FROM, in order, each with the conditions on its rows alone.
    pub sources: Listing<PlanSource>,
    /// The other parts of WHERE's condition that AND joins, in order.
    pub filter: Listing<TypedExpr>,
    /// Whether the answer is made of groups of rows.
    pub grouped: bool,
    /// The columns of GROUP BY, or those that DISTINCT selects.
    pub groups: Listing<ColumnRef>,
    /// The aggregates of the items and of HAVING.
    pub aggregates: Listing<Aggregate>,
    /// The condition of HAVING.
    pub having: Option<TypedExpr>,
    /// The items.
    pub items: Listing<TypedExpr>,
    /// The keys of ORDER BY.
    pub order: Listing<OrderKey>,
}

// Written out, so that letting go of one is a call.
impl Drop for RelPlan {
    fn drop(self) {
        let RelPlan {
            sources: _,
            filter: _,
            grouped: _,
            groups: _,
            aggregates: _,
            having: _,
            items: _,
            order: _,
        } = self;
    }
}

fn is_grouped(q: &TypedQuery) -> bool
    ensures { result ≡ spec.is_grouped q.now }
{
    q.groups.len() != 0 || q.aggregates.len() != 0
}

/// The plan that a query stands for as it is written: it tests each condition on whole rows, and has all columns of each table. It fails only for
/// want of memory.
pub fn plan(alloc: Global, q: &TypedQuery) -> Result<RelPlan, NoMemory>
    ensures { IfOk result (λ p. p ≡ spec.plan_of q.now) }
{
    let sources = copied_sources(alloc, q.sources.as_slice())?;
    let filter = copied_all(alloc, q.filter.as_slice())?;
    let groups = copied_plain(alloc, q.groups.as_slice())?;
    let aggregates = copied_aggregates(alloc, q.aggregates.as_slice())?;
    let having = copied_option(alloc, &q.having)?;
    let items = copied_all(alloc, q.items.as_slice())?;
    let order = copied_plain(alloc, q.order.as_slice())?;
    Ok(RelPlan {
        sources,
        filter,
        grouped: is_grouped(q),
        groups,
        aggregates,
        having,
        items,
        order,
    })
}
