//! Whole typed queries, and what is asked of them.

use crate::clauses::{show_aggregate, show_groups, show_key, show_lines, show_source};
use crate::expressions::show_expression;
use case_text::{show_count, show_number};
use io_edge::Name;
use std::alloc::AllocError;
use typed_trees::{Aggregate, OrderKey, PlanSource, TypedExpr, TypedQuery};
use typed_values::{bounds, cannot_overflow};

fn show_sources(out: &mut String, sources: &[PlanSource]) -> Result<(), AllocError> {
    for source in sources {
        show_source(out, source)?;
    }
    Ok(())
}

fn show_aggregates(out: &mut String, aggregates: &[Aggregate]) -> Result<(), AllocError> {
    for a in aggregates {
        show_aggregate(out, a)?;
    }
    Ok(())
}

fn show_having(out: &mut String, having: &Option<TypedExpr>) -> Result<(), AllocError> {
    match having {
        None => Ok(()),
        Some(e) => {
            out.push_str("    HAVING ")?;
            show_expression(out, e)?;
            out.push('\n')?;
            Ok(())
        }
    }
}

fn show_names(out: &mut String, names: &[Name]) -> Result<(), AllocError> {
    out.push_str("    NAMES")?;
    for name in names {
        out.push(' ')?;
        out.push_str(name.text())?;
    }
    out.push('\n')?;
    Ok(())
}

fn show_order(out: &mut String, order: &[OrderKey]) -> Result<(), AllocError> {
    for k in order {
        show_key(out, k)?;
    }
    Ok(())
}

/// Each clause of a query.
pub fn show_clauses(out: &mut String, q: &TypedQuery) -> Result<(), AllocError> {
    show_sources(out, q.sources.as_slice())?;
    show_lines(out, "    WHERE ", q.filter.as_slice())?;
    show_groups(out, q.groups.as_slice())?;
    show_aggregates(out, q.aggregates.as_slice())?;
    show_having(out, &q.having)?;
    show_lines(out, "    ITEM ", q.items.as_slice())?;
    show_names(out, q.names.as_slice())?;
    show_order(out, q.order.as_slice())
}

/// Of each part of WHERE's condition whether it cannot leave 128 bits.
pub fn show_within(out: &mut String, q: &TypedQuery) -> Result<(), AllocError> {
    for part in q.filter.as_slice() {
        out.push_str(if cannot_overflow(part) {
            "    stays within 128 bits\n"
        } else {
            "    may leave 128 bits\n"
        })?;
    }
    Ok(())
}

fn show_bounds(out: &mut String, e: &TypedExpr) -> Result<(), AllocError> {
    match bounds(e) {
        None => out.push_str("    no ends\n"),
        Some(interval) => {
            out.push_str("    from ")?;
            show_number(out, interval.least)?;
            out.push_str(" to ")?;
            show_number(out, interval.greatest)?;
            out.push('\n')?;
            Ok(())
        }
    }
}

/// The least and the greatest that each item can be.
pub fn show_ends(out: &mut String, q: &TypedQuery) -> Result<(), AllocError> {
    for item in q.items.as_slice() {
        show_bounds(out, item)?;
    }
    Ok(())
}
