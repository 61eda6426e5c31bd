//! Whole queries, a clause a line.

use crate::clauses::{show_at, show_item, show_join, show_key, show_placed, show_table};
use crate::expressions::show_expression;
use query_trees::{ColumnName, Expr, Query, SelectList, SortKey, Source};
use std::alloc::AllocError;

fn show_start(out: &mut String, q: &Query) -> Result<(), AllocError> {
    out.push_str("    ")?;
    show_at(out, "SELECT", q.at)?;
    if let Some(at) = q.distinct {
        out.push(' ')?;
        show_at(out, "DISTINCT", at)?;
    }
    Ok(())
}

fn show_list(out: &mut String, list: &SelectList) -> Result<(), AllocError> {
    match list {
        SelectList::All(at) => {
            out.push(' ')?;
            show_at(out, "*", *at)?;
        }
        SelectList::Items(items) => {
            for item in items.as_slice() {
                out.push_str("\n        ")?;
                show_item(out, item)?;
            }
        }
    }
    Ok(())
}

fn show_source(out: &mut String, source: &Source) -> Result<(), AllocError> {
    out.push_str("\n    FROM ")?;
    show_table(out, &source.first)?;
    for j in source.joins.as_slice() {
        out.push_str("\n        ")?;
        show_join(out, j)?;
    }
    Ok(())
}

fn show_condition(out: &mut String, word: &str, e: &Option<Expr>) -> Result<(), AllocError> {
    match e {
        None => Ok(()),
        Some(e) => {
            out.push_str("\n    ")?;
            out.push_str(word)?;
            out.push(' ')?;
            show_expression(out, e)
        }
    }
}

fn show_groups(out: &mut String, groups: &[ColumnName]) -> Result<(), AllocError> {
    if !groups.is_empty() {
        out.push_str("\n    GROUP BY")?;
    }
    for c in groups {
        out.push(' ')?;
        show_placed(out, c)?;
    }
    Ok(())
}

fn show_order(out: &mut String, keys: &[SortKey]) -> Result<(), AllocError> {
    if !keys.is_empty() {
        out.push_str("\n    ORDER BY")?;
    }
    for k in keys {
        out.push(' ')?;
        show_key(out, k)?;
    }
    Ok(())
}

/// Each clause of a query that it has.
pub fn show_clauses(out: &mut String, q: &Query) -> Result<(), AllocError> {
    show_start(out, q)?;
    show_list(out, &q.list)?;
    show_source(out, &q.source)?;
    show_condition(out, "WHERE", &q.filter)?;
    show_groups(out, q.groups.as_slice())?;
    show_condition(out, "HAVING", &q.having)?;
    show_order(out, q.order.as_slice())?;
    out.push('\n')?;
    Ok(())
}

/// The condition of WHERE.
pub fn show_filter(out: &mut String, q: &Query) -> Result<(), AllocError> {
    out.push_str("    ")?;
    match &q.filter {
        None => out.push_str("no condition")?,
        Some(e) => show_expression(out, e)?,
    }
    out.push('\n')?;
    Ok(())
}
