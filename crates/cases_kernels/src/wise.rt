//! Operators that work slot by slot.

use case_columns::{column, int, show_made};
use control_vectors::PairKind;
use slot_wise::{Source, common_len, pairs, shifts};
use std::alloc::{AllocError, Global};
use struct_vectors::Column;

/// The operator of a name.
fn kind(name: &str) -> Option<PairKind> {
    match name {
        "Add" => Some(PairKind::Add),
        "Subtract" => Some(PairKind::Subtract),
        "Multiply" => Some(PairKind::Multiply),
        "Divide" => Some(PairKind::Divide),
        "Modulo" => Some(PairKind::Modulo),
        "Greater" => Some(PairKind::Greater),
        "Equals" => Some(PairKind::Equals),
        "LogicalAnd" => Some(PairKind::LogicalAnd),
        "LogicalOr" => Some(PairKind::LogicalOr),
        "Fill" => Some(PairKind::Fill),
        _ => None,
    }
}

/// A number for every place, or a column.
fn source<'a>(text: &str, column: &'a Column) -> Source<'a> {
    match text.trim().strip_prefix('#') {
        Some(number) => Source::Number(number.parse::<i128>().unwrap_or(0)),
        None => Source::Column(column),
    }
}

pub fn answer(
    alloc: Global,
    name: &str,
    [first, second, _]: [&str; 3],
    to: &mut String,
) -> Result<(), AllocError> {
    if name == "BitShift" {
        return shifted(alloc, first, second, to);
    }
    match kind(name) {
        Some(kind) => paired(alloc, kind, first, second, to),
        None => to.push_str(" no case"),
    }
}

fn paired(
    alloc: Global,
    kind: PairKind,
    first: &str,
    second: &str,
    to: &mut String,
) -> Result<(), AllocError> {
    let left = column(alloc, first)?;
    let right = column(alloc, second)?;
    let (x, y) = (source(first, &left), source(second, &right));
    let n = common_len(x, y);
    show_made(to, pairs(alloc, kind, x, y, n))
}

fn shifted(alloc: Global, by: &str, text: &str, to: &mut String) -> Result<(), AllocError> {
    let by = i32::try_from(int(by, 0)).unwrap_or(0);
    let column = column(alloc, text)?;
    let n = column.len();
    show_made(to, shifts(alloc, Source::Column(&column), by, n))
}
