//! Reads a case from each line, and prints the line and below it what became of it: the kernels that move slots, over a stretch of
//! places.
//!
//! A source is written as what its places give: a number, `-` for an empty slot, `over` for one that leaves 128 bits. The two
//! numbers behind a kernel's name say where the stretch begins, and how many places it has. Each of them held 77 before.
//!
//! | case | answer |
//! |---|---|
//! | `gather 1 2 \| 10 20 30 \| 2 0 1` | the slots at the positions of the stretch |
//! | `scatter 0 3 \| 10 20 30 \| 1 1 5` | the slots that were sent to its places |
//! | `bucket 0 2 \| 0 2 \| 1 2` | how many of the pivots behind the second bar are not above each of its keys |
//! | `left 2 4 \| 3`, `right 2 4 \| 3` | of the pairs with so many places, the place of one of each |
//!
//! A line that is empty or begins with `#` is printed as it is.
#![tactic(auto)]

ghost use Rattle.std.specs.Prelude.{◌≤◌};

mod cells;

use case_columns::{int, show_slots};
use cells::{Cells, sorted};
use control_vectors::{Over, Slot, SlotSource};
use move_kernels::{bucket_into, cross_into, gather_into, scatter_into};
use std::alloc::{AllocError, Global};
use std::io;

/// The parts of a line between bars, at most three.
fn parts(line: &str) -> [&str; 3] {
    match line.split_once('|') {
        None => [line, "", ""],
        Some((first, rest)) => match rest.split_once('|') {
            None => [first, rest, ""],
            Some((second, third)) => [first, second, third],
        },
    }
}

/// A number of a text, at most 1,000.
fn small(text: &str, k: usize) -> u32
    ensures { result ≤ 1000 }
{
    u32::try_from(int(text, k)).unwrap_or(0).min(1000)
}

fn gathered(
    alloc: Global,
    [stretch, source, positions]: [&str; 3],
    to: &mut String,
) -> Result<(), AllocError> {
    let source = Cells::of(alloc, source)?;
    let positions = Cells::of(alloc, positions)?;
    let (first, n) = (small(stretch, 0), small(stretch, 1));
    if first + n > positions.len() {
        return to.push_str(" no stretch");
    }
    let mut out = vec![in alloc; Some(77); n as usize]?;
    let told = gather_into(&source, &positions, first, out.as_mut_slice());
    show(told, out.as_slice(), to)
}

fn scattered(
    alloc: Global,
    [stretch, source, positions]: [&str; 3],
    to: &mut String,
) -> Result<(), AllocError> {
    let source = Cells::of(alloc, source)?;
    let positions = Cells::of(alloc, positions)?;
    let first = u32::try_from(int(stretch, 0)).unwrap_or(0);
    let mut out = vec![in alloc; Some(77); small(stretch, 1) as usize]?;
    let told = scatter_into(&source, &positions, first, out.as_mut_slice());
    show(told, out.as_slice(), to)
}

fn bucketed(
    alloc: Global,
    [stretch, keys, pivots]: [&str; 3],
    to: &mut String,
) -> Result<(), AllocError> {
    let keys = Cells::of(alloc, keys)?;
    let pivots = sorted(alloc, pivots)?;
    let (first, n) = (small(stretch, 0), small(stretch, 1));
    if first + n > keys.len() {
        return to.push_str(" no stretch");
    }
    let mut out = vec![in alloc; Some(77); n as usize]?;
    let told = bucket_into(&keys, pivots.as_slice(), first, out.as_mut_slice());
    show(told, out.as_slice(), to)
}

fn crossed(
    alloc: Global,
    left: bool,
    [stretch, many, _]: [&str; 3],
    to: &mut String,
) -> Result<(), AllocError> {
    let m = u32::try_from(int(many, 0)).unwrap_or(0);
    let mut out = vec![in alloc; Some(77); small(stretch, 1) as usize]?;
    let first = u32::try_from(int(stretch, 0)).unwrap_or(0);
    if m < 1 || first > 1_000_000 {
        return to.push_str(" no stretch");
    }
    cross_into(m, left, first, out.as_mut_slice());
    show(Ok(()), out.as_slice(), to)
}

/// Appends the slots that a kernel wrote, or that it answered Over.
fn show(told: Result<(), Over>, out: &[Slot], to: &mut String) -> Result<(), AllocError> {
    match told {
        Ok(()) => show_slots(to, out),
        Err(Over) => to.push_str(" over"),
    }
}

/// Appends what became of a case.
fn answer(alloc: Global, line: &str, to: &mut String) -> Result<(), AllocError> {
    let (name, rest) = line.split_once(' ').unwrap_or((line, ""));
    let given = parts(rest);
    match name {
        "gather" => gathered(alloc, given, to),
        "scatter" => scattered(alloc, given, to),
        "bucket" => bucketed(alloc, given, to),
        "left" => crossed(alloc, true, given, to),
        "right" => crossed(alloc, false, given, to),
        _ => to.push_str(" no case"),
    }
}

fn main(rt: HostRuntime) -> io::Result<()> {
    for line in rt.lines(rt.alloc()) {
        let line = line?;
        if line.is_empty() || line.starts_with('#') {
            println!(rt; "{line}")?;
        } else {
            let mut told = String::new(rt.alloc());
            answer(rt.alloc(), line.as_str(), &mut told)?;
            println!(rt; "{line}\n   {told}")?;
        }
    }
    Ok(())
}
