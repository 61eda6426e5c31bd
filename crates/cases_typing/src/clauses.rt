//! Sources, aggregates and keys as text.

use crate::expressions::{show_expression, show_place};
use crate::names::aggregate_name;
use case_text::show_count;
use std::alloc::AllocError;
use typed_trees::{Aggregate, ColumnRef, KeyRef, OrderKey, PlanSource, TypedExpr};

/// A list of expressions, each on a line of its own.
pub fn show_lines(out: &mut String, word: &str, xs: &[TypedExpr]) -> Result<(), AllocError> {
    for x in xs {
        out.push_str(word)?;
        show_expression(out, x)?;
        out.push('\n')?;
    }
    Ok(())
}

fn show_join(out: &mut String, join: &Option<(ColumnRef, u32)>) -> Result<(), AllocError> {
    match join {
        None => Ok(()),
        Some((left, own)) => {
            out.push_str(" on ")?;
            show_place(out, *left)?;
            out.push_str(" = own ")?;
            show_count(out, *own as u128)
        }
    }
}

/// The table's place, the columns of it that the query has, and a key join.
pub fn show_source(out: &mut String, source: &PlanSource) -> Result<(), AllocError> {
    out.push_str("    FROM table ")?;
    show_count(out, source.table as u128)?;
    out.push_str(" columns")?;
    for place in source.columns.as_slice() {
        out.push(' ')?;
        show_count(out, *place as u128)?;
    }
    show_join(out, &source.join)?;
    out.push('\n')?;
    show_lines(out, "        where ", source.filter.as_slice())
}

pub fn show_groups(out: &mut String, groups: &[ColumnRef]) -> Result<(), AllocError> {
    for c in groups {
        out.push_str("    GROUP BY ")?;
        show_place(out, *c)?;
        out.push('\n')?;
    }
    Ok(())
}

pub fn show_aggregate(out: &mut String, a: &Aggregate) -> Result<(), AllocError> {
    out.push_str("    AGGREGATE ")?;
    out.push_str(aggregate_name(a.kind))?;
    match &a.argument {
        None => out.push_str(" *\n"),
        Some(e) => {
            out.push(' ')?;
            show_expression(out, e)?;
            out.push('\n')?;
            Ok(())
        }
    }
}

fn show_key_ref(out: &mut String, key: KeyRef) -> Result<(), AllocError> {
    match key {
        KeyRef::Item(place) => {
            out.push_str("item ")?;
            show_count(out, place as u128)
        }
        KeyRef::Column(c) => show_place(out, c),
    }
}

pub fn show_key(out: &mut String, k: &OrderKey) -> Result<(), AllocError> {
    out.push_str("    ORDER BY ")?;
    show_key_ref(out, k.key)?;
    out.push_str(if k.descending { " DESC\n" } else { " ASC\n" })
}
