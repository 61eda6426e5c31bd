//! Operators that move slots.

use case_columns::{column, int, show};
use slot_moves::{ascending, buckets, gather, left_column, partitions, right_column, writers};
use std::alloc::{AllocError, Global};

pub fn answer(
    alloc: Global,
    name: &str,
    [first, second, third]: [&str; 3],
    to: &mut String,
) -> Result<(), AllocError> {
    match name {
        "gather" => gathered(alloc, first, second, to),
        "scatter" => scattered(alloc, int(first, 0), second, third, to),
        "ascending" => pivots(alloc, first, to),
        "buckets" => ranked(alloc, first, second, to),
        "partitions" => parted(alloc, first, second, to),
        _ => crossed(int(first, 0), int(first, 1), to),
    }
}

fn gathered(
    alloc: Global,
    source: &str,
    positions: &str,
    to: &mut String,
) -> Result<(), AllocError> {
    let source = column(alloc, source)?;
    let positions = column(alloc, positions)?;
    show(to, &gather(alloc, &source, &positions)?)
}

fn scattered(
    alloc: Global,
    n: i128,
    source: &str,
    positions: &str,
    to: &mut String,
) -> Result<(), AllocError> {
    let n = u32::try_from(n).unwrap_or(0).min(1000);
    let source = column(alloc, source)?;
    let positions = column(alloc, positions)?;
    let last = writers(alloc, &positions, source.len(), n)?;
    show(to, &gather(alloc, &source, &last)?)
}

fn pivots(alloc: Global, text: &str, to: &mut String) -> Result<(), AllocError> {
    let column = column(alloc, text)?;
    for z in &ascending(alloc, &column)? {
        write!(to, " {z}")?;
    }
    Ok(())
}

fn ranked(alloc: Global, keys: &str, pivots: &str, to: &mut String) -> Result<(), AllocError> {
    let keys = column(alloc, keys)?;
    let pivots = column(alloc, pivots)?;
    show(to, &buckets(alloc, &keys, &pivots)?)
}

fn parted(alloc: Global, keys: &str, pivots: &str, to: &mut String) -> Result<(), AllocError> {
    let keys = column(alloc, keys)?;
    let pivots = column(alloc, pivots)?;
    show(to, &partitions(alloc, &keys, &pivots)?)
}

fn crossed(n: i128, m: i128, to: &mut String) -> Result<(), AllocError> {
    let n = u32::try_from(n).unwrap_or(0).min(100);
    let m = u32::try_from(m).unwrap_or(0).min(100);
    if n * m > 10_000 {
        return Ok(());
    }
    show(to, &left_column(n, m))?;
    to.push_str(" |")?;
    show(to, &right_column(n, m))
}
