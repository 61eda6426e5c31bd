//! Reads a case from each line, and prints the line and below it what became of it: columns, vectors, and the kernels of the
//! operators over them.
//!
//! A column is written as its slots, `-` for an empty one. `#7` stands for the number 7 at every place, and `/` stands
//! before the first slot of a run.
//!
//! | case | answer |
//! |---|---|
//! | `Add 1 - 3 \| 10 20 #2` and each operator of two sources | its slots, or `over` |
//! | `BitShift -1 \| 7 -7` | its slots, or `over` |
//! | `gather 10 20 \| 1 0 1`, `scatter 3 \| 10 20 30 \| 1 1 5` | the slots at positions; the slots that were sent to them |
//! | `ascending 2 - 1`, `buckets 0 2 \| 1 2`, `partitions 3 1 \| 1 2` | the pivots; the bucket, or the place, of each key |
//! | `cross 2 3` | the places of the left, then of the right |
//! | `FoldSum / 1 2 / - 3` and the other folds | its slots, or `over` |
//! | `order 1 1 1 1 \| down 2 9 2 9 \| 1 1 1 1` | the order of four places by two keys, of which the second ascends |
//! | `places 3 1 2 1 \| 1 2 3` | the places of four keys among pivots |
//! | `slots 1 - 3`, `push 7`, `maker wide 1 -` | the column's slots, and whether it is read as narrow numbers |
//! | `halves 4`, `squares 3`, `over 3 4` | columns made of a function; the last is over at place 3 of 4 |
//! | `control 0 2 0 3 \| 7` | a control vector as a column |
//! | `front 2 \| 4 5 6` | the vector of a column's front, copied |
//! | `vector 3 \| .b 1 2 3 \| .a 4 5 6` | the vector of two attributes, or why they make none |
//! | `stretch .b \| .b 1 \| .a 2`, `stored t .b \| .b 1 \| .a 2` | the places of its paths at or below one; an attribute of the table `t` |
//!
//! A line that is empty or begins with `#` is printed as it is.
#![tactic(auto)]

mod columns;
mod folds;
mod moves;
mod orders;
mod vectors;
mod wise;

use std::alloc::{AllocError, Global};
use std::io;

/// The parts of a line between bars, at most three.
fn parts(line: &str) -> [&str; 3] {
    match line.split_once('|') {
        None => [line, "", ""],
        Some((first, rest)) => match rest.split_once('|') {
            None => [first, rest, ""],
            Some((second, third)) => [first, second, third],
        },
    }
}

/// Appends what became of a case.
fn answer(alloc: Global, line: &str, to: &mut String) -> Result<(), AllocError> {
    let (name, rest) = line.split_once(' ').unwrap_or((line, ""));
    let given = parts(rest);
    match name {
        "gather" | "scatter" | "ascending" | "buckets" | "partitions" | "cross" => {
            moves::answer(alloc, name, given, to)
        }
        "FoldSum" | "FoldMin" | "FoldMax" | "FoldSelect" | "FoldScan" => {
            folds::answer(alloc, name, rest, to)
        }
        "order" | "places" => orders::answer(alloc, name, given, to),
        "slots" | "push" | "maker" | "halves" | "squares" | "over" | "control" => {
            columns::answer(alloc, name, given, to)
        }
        "front" | "vector" | "stretch" | "stored" => vectors::answer(alloc, name, given, to),
        _ => wise::answer(alloc, name, given, to),
    }
}

fn main(rt: HostRuntime) -> io::Result<()> {
    for line in rt.lines(rt.alloc()) {
        let line = line?;
        if line.is_empty() || line.starts_with('#') {
            println!(rt; "{line}")?;
        } else {
            let mut told = String::new(rt.alloc());
            answer(rt.alloc(), line.as_str(), &mut told)?;
            println!(rt; "{line}\n   {told}")?;
        }
    }
    Ok(())
}
