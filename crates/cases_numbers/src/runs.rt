//! Cases of runs.

use crate::{Told, append, control, int, word};
use control_vectors::ControlVector;
use run_infer::{ControlRuns, RunMarks, Runs, TupleRuns, infer, next_start, run_starts};
use std::alloc::{AllocError, Global};
use struct_vectors::Column;

/// What is inferred from the four numbers of a line.
pub fn told_runs(alloc: Global, line: &str) -> Result<Told, AllocError> {
    match control(line) {
        Some(v) => match infer(&v) {
            Runs::One => Ok(Told::Text(String::from_str(alloc, "one run")?)),
            Runs::Uniform(length) => Ok(Told::Text(format!(in alloc; "runs of {length}")?)),
            Runs::ByValue => Ok(Told::Text(String::from_str(alloc, "by value")?)),
        },
        None => Ok(Told::Wrong),
    }
}

/// The runs of so many values of the control vector of a line.
fn runs_of(v: ControlVector, line: &str) -> ControlRuns {
    let n = u32::try_from(int(line, 6)).unwrap_or(0);
    ControlRuns::new(v, n.min(100))
}

/// Where these runs begin.
pub fn told_starts(alloc: Global, line: &str) -> Result<Told, AllocError> {
    match control(line) {
        Some(v) => listed(alloc, &runs_of(v, line)),
        None => Ok(Told::Wrong),
    }
}

/// Where the next of these runs begins, or where the list ends.
pub fn told_next(line: &str) -> Told {
    let Some(v) = control(line) else {
        return Told::Wrong;
    };
    let runs = runs_of(v, line);
    match u32::try_from(int(line, 8)) {
        Ok(after) if after < runs.len() => Told::Number(i128::from(next_start(&runs, after))),
        _ => Told::Wrong,
    }
}

/// Where the runs of two columns begin that stand side by side.
pub fn told_pairs(alloc: Global, line: &str) -> Result<Told, AllocError> {
    let (first, second) = match line.split_once(':') {
        Some((_, columns)) => columns.split_once('&').unwrap_or((columns, "")),
        None => ("", ""),
    };
    let parts = [column(alloc, first)?, column(alloc, second)?];
    let n = parts[0].len();
    if parts[1].len() == n {
        listed(alloc, &TupleRuns::new(&parts, n))
    } else {
        Ok(Told::Wrong)
    }
}

/// Where the runs of one column begin.
pub fn told_column(alloc: Global, line: &str) -> Result<Told, AllocError> {
    let text = match line.split_once(':') {
        Some((_, text)) => text,
        None => "",
    };
    let parts = [column(alloc, text)?];
    let n = parts[0].len();
    listed(alloc, &TupleRuns::new(&parts, n))
}

/// Where the runs of so many tuples without a slot begin.
pub fn told_units(alloc: Global, line: &str) -> Result<Told, AllocError> {
    let n = u32::try_from(int(line, 1)).unwrap_or(0);
    listed(alloc, &TupleRuns::new(&[], n.min(100)))
}

/// The column of the words of a text, `-` for an empty slot.
fn column(alloc: Global, text: &str) -> Result<Column, AllocError> {
    let mut numbers = Vec::new(alloc);
    let mut marks = Vec::new(alloc);
    for word in text.split_whitespace() {
        numbers.push(word.parse::<i128>().unwrap_or(0))?;
        marks.push(word != "-")?;
    }
    if numbers.len() <= 100 && marks.len() == numbers.len() {
        Ok(Column::wide_with_empties(numbers, marks))
    } else {
        Ok(Column::wide(Vec::new(alloc)))
    }
}

/// The places at which runs begin.
fn listed<M: RunMarks>(alloc: Global, marks: &M) -> Result<Told, AllocError> {
    let mut text = String::new(alloc);
    for start in &run_starts(alloc, marks)? {
        append(&mut text, i128::from(*start))?;
    }
    if text.is_empty() {
        text.push_str("none")?;
    }
    Ok(Told::Text(text))
}
