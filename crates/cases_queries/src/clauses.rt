//! Tables, items and keys as text.

use crate::expressions::{show_column, show_expression};
use crate::names::direction_name;
use case_text::show_count;
use query_trees::{Alias, ColumnName, Join, JoinKind, SelectItem, SortBy, SortKey, TableName};
use std::alloc::AllocError;

/// A word and the byte at which it stands: `word@byte`.
pub fn show_at(out: &mut String, word: &str, at: u32) -> Result<(), AllocError> {
    out.push_str(word)?;
    out.push('@')?;
    show_count(out, at as u128)
}

fn show_alias(out: &mut String, alias: &Option<Alias>) -> Result<(), AllocError> {
    match alias {
        None => Ok(()),
        Some(a) => {
            out.push_str(" as ")?;
            show_at(out, a.name.text(), a.at)
        }
    }
}

pub fn show_item(out: &mut String, item: &SelectItem) -> Result<(), AllocError> {
    show_expression(out, &item.value)?;
    show_alias(out, &item.alias)
}

/// The table as `name@byte`, with ` as name@byte` behind where it has another name.
pub fn show_table(out: &mut String, t: &TableName) -> Result<(), AllocError> {
    show_at(out, t.name.text(), t.at)?;
    show_alias(out, &t.alias)
}

/// The column with its first byte.
pub fn show_placed(out: &mut String, c: &ColumnName) -> Result<(), AllocError> {
    show_count(out, c.at as u128)?;
    out.push(':')?;
    show_column(out, c)
}

/// The columns of a key join, with the byte of its `=`.
fn show_on(
    out: &mut String,
    left: &ColumnName,
    at: u32,
    right: &ColumnName,
) -> Result<(), AllocError> {
    out.push_str(" on (= @")?;
    show_count(out, at as u128)?;
    out.push(' ')?;
    show_placed(out, left)?;
    out.push(' ')?;
    show_placed(out, right)?;
    out.push(')')?;
    Ok(())
}

/// A table that is added, behind the byte of its comma or first word.
pub fn show_join(out: &mut String, j: &Join) -> Result<(), AllocError> {
    show_count(out, j.at as u128)?;
    out.push(':')?;
    show_table(out, &j.table)?;
    match &j.kind {
        JoinKind::Cross => Ok(()),
        JoinKind::On(left, at, right) => show_on(out, left, *at, right),
    }
}

fn show_by(out: &mut String, by: &SortBy) -> Result<(), AllocError> {
    match by {
        SortBy::Place(n) => show_count(out, *n),
        SortBy::Column(c) => show_column(out, c),
    }
}

pub fn show_key(out: &mut String, k: &SortKey) -> Result<(), AllocError> {
    show_count(out, k.at as u128)?;
    out.push(':')?;
    show_by(out, &k.by)?;
    out.push(' ')?;
    out.push_str(direction_name(k.direction))
}
