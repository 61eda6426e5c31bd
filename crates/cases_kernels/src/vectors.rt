//! Vectors of two attributes, and the tables of a store.

use case_columns::{column, int, len_of, path, show, show_vector, store, vector};
use io_edge::Name;
use key_paths::PathRange;
use std::alloc::{AllocError, Global};
use struct_vectors::StructVector;

pub fn answer(
    alloc: Global,
    name: &str,
    [first, second, third]: [&str; 3],
    to: &mut String,
) -> Result<(), AllocError> {
    match name {
        "front" => front(alloc, int(first, 0), second, to),
        "vector" => told(alloc, int(first, 0), second, third, to),
        "stretch" => stretch(alloc, first, second, third, to),
        _ => stored(alloc, first, second, third, to),
    }
}

fn told(
    alloc: Global,
    n: i128,
    first: &str,
    second: &str,
    to: &mut String,
) -> Result<(), AllocError> {
    let n = u32::try_from(n).unwrap_or(0).min(1000);
    match vector(alloc, n, first, second) {
        Ok(v) => show_vector(to, &v),
        Err(refusal) => write!(to, " {refusal}"),
    }
}

fn stretch(
    alloc: Global,
    prefix: &str,
    first: &str,
    second: &str,
    to: &mut String,
) -> Result<(), AllocError> {
    let prefix = path(alloc, prefix, 0)?;
    match vector(alloc, len_of(first), first, second) {
        Ok(v) => {
            if v.paths().len() > 2 {
                return to.push_str(" too many paths");
            }
            let PathRange { from, to: end } = PathRange::of(v.paths(), &prefix);
            write!(to, " {from} to {end}")
        }
        Err(_) => to.push_str(" no vector"),
    }
}

/// An attribute of a table of the store that has the vector under the name `t`.
fn stored(
    alloc: Global,
    asked: &str,
    first: &str,
    second: &str,
    to: &mut String,
) -> Result<(), AllocError> {
    let path = path(alloc, asked, 1)?;
    let name = Name::of(alloc, asked.split_whitespace().next().unwrap_or(""))?;
    let Ok(store) = store(alloc, first, second) else {
        return to.push_str(" no vector");
    };
    match store.table(&name) {
        None => to.push_str(" no table"),
        Some(v) => match v.column(&path) {
            None => to.push_str(" no column"),
            Some(column) => show(to, column),
        },
    }
}

/// The vector of a column's front, copied.
fn front(alloc: Global, n: i128, text: &str, to: &mut String) -> Result<(), AllocError> {
    let column = column(alloc, text)?;
    let n = u32::try_from(n).unwrap_or(0).min(column.len());
    let path = path(alloc, ".b", 0)?;
    let v = StructVector::of_column(alloc, path, column.front(alloc, n)?)?;
    show_vector(to, &v.copied(alloc)?)
}
