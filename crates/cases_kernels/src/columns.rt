//! Columns and those who make them.

use case_columns::{column, int, show, show_made};
use control_vectors::{ControlVector, Over};
use slot_columns::{ColumnBuilder, column_of, slots_of};
use std::alloc::{AllocError, Global};
use struct_vectors::{Column, ColumnMaker};

pub fn answer(
    alloc: Global,
    name: &str,
    [first, second, _]: [&str; 3],
    to: &mut String,
) -> Result<(), AllocError> {
    match name {
        "slots" => told(to, &column(alloc, first)?),
        "push" => pushed(alloc, first, to),
        "maker" => made(alloc, first, to),
        "control" => controlled(alloc, first, second, to),
        "halves" => halves(alloc, int(first, 0), to),
        "squares" => squares(alloc, int(first, 0), to),
        _ => over(alloc, int(first, 0), int(first, 1), to),
    }
}

/// Appends a column's slots, and whether they are read as narrow numbers.
fn told(to: &mut String, column: &Column) -> Result<(), AllocError> {
    show(to, column)?;
    match column.narrow_slice() {
        Some(numbers) => write!(to, ", {} narrow numbers", numbers.len()),
        None => Ok(()),
    }
}

/// The column of one slot, made in a room of two.
fn pushed(alloc: Global, text: &str, to: &mut String) -> Result<(), AllocError> {
    let mut builder = ColumnBuilder::with_room(alloc, 2)?;
    builder.push(slot(text, 0))?;
    told(to, &builder.done())
}

fn slot(text: &str, k: usize) -> Option<i128> {
    let word = text.split_whitespace().nth(k).unwrap_or("");
    word.parse::<i128>().ok()
}

/// The slot of a number of 64 bits.
fn narrow_slot(text: &str, k: usize) -> Option<i64> {
    let word = text.split_whitespace().nth(k).unwrap_or("");
    word.parse::<i64>().ok()
}

/// The column of two slots, kept narrow or wide, and copied.
fn made(alloc: Global, text: &str, to: &mut String) -> Result<(), AllocError> {
    let is_wide = text.starts_with("wide");
    let mut maker = ColumnMaker::with_room(alloc, 2, is_wide)?;
    maker.push(narrow_slot(text, 1).map(|z| i128::from(z)));
    maker.push(narrow_slot(text, 2).map(|z| i128::from(z)));
    let column = maker.done();
    told(to, &column.copied(alloc)?)
}

fn controlled(alloc: Global, four: &str, n: &str, to: &mut String) -> Result<(), AllocError> {
    let Some(v) = control(four) else {
        return to.push_str(" not admissible");
    };
    let n = u32::try_from(int(n, 0)).unwrap_or(0).min(1000);
    let column = Column::control(v, n).copied(alloc)?;
    show(to, &column)?;
    if column.control_vector() == Some(v) {
        to.push_str(", a control vector")?;
    }
    Ok(())
}

fn control(four: &str) -> Option<ControlVector> {
    let start = i64::try_from(int(four, 0)).ok()?;
    let step = u64::try_from(int(four, 1)).ok()?;
    let modulus = u64::try_from(int(four, 2)).ok()?;
    let divisor = u64::try_from(int(four, 3)).ok()?;
    ControlVector::new(start, step, modulus, divisor)
}

/// At each even place its half, at each odd place nothing.
fn halves(alloc: Global, n: i128, to: &mut String) -> Result<(), AllocError> {
    let n = u32::try_from(n).unwrap_or(0).min(1000);
    let made = column_of(
        alloc,
        n,
        |i| Ok(if i % 2 == 0 {
            Some(i128::from(i / 2))
        } else {
            None
        }),
    );
    show_made(to, made)
}

fn squares(alloc: Global, n: i128, to: &mut String) -> Result<(), AllocError> {
    let n = u32::try_from(n).unwrap_or(0).min(1000);
    show(
        to,
        &slots_of(alloc, n, |i| Some(i128::from(i) * i128::from(i)))?,
    )
}

/// Empty slots, but for a place that is over.
fn over(alloc: Global, place: i128, n: i128, to: &mut String) -> Result<(), AllocError> {
    let n = u32::try_from(n).unwrap_or(0).min(1000);
    let made = column_of(
        alloc,
        n,
        |i| if i128::from(i) == place {
            Err(Over)
        } else {
            Ok(None)
        },
    );
    show_made(to, made)
}
