//! Reads a case from each line, and prints the line and below it what became of it: the rules of numbers of 128 bits, exact
//! totals, control vectors and their runs, and key paths.
//!
//! | case | answer |
//! |---|---|
//! | `add 2 3`, `sub`, `mul`, `quot`, `rest`, `shift` | the number, or `over` |
//! | `total 1 2 & 3` | the exact total and how many terms it has; what stands behind `&` is merged |
//! | `control 0 2 0 3 : 7` | the list of so many values, or `not admissible` |
//! | `at 0 2 0 3 : 7` | the value at that place, and the four numbers as the vector tells them |
//! | `shifted 6 2 6 1 : -7`, `scaled`, `divided`, `reduced` | the four numbers of the control vector that the operation gives, or `none` |
//! | `infer 0 2 0 3` | what the four numbers tell of the runs: `one run`, `runs of 3` or `by value` |
//! | `starts 0 2 0 3 : 7` | where the runs of so many values begin |
//! | `next 0 2 0 3 : 7 : 2` | where the next of these runs begins behind that place, or the length |
//! | `column : 7 7 -`, `pairs : 7 7 & 1 -` | where the runs of a column begin, or of two side by side; `-` is an empty slot |
//! | `units 3` | where the runs of so many tuples without a slot begin |
//! | `path ".a.b"` | `a path`, or the first byte at which it is none, and why |
//! | `below .a.b .a`, `root .` | `yes` or `no` |
//! | `stretch .b : .b.c` | the places of the paths at or below the first |
//!
//! A line that is empty or begins with `#` is printed as it is.
#![tactic(auto)]

mod closed;
mod runs;

use control_vectors::{ControlVector, Total, add, floor_mod, mul, quot, shift, sub};
use key_paths::{Path, PathRange, PathRefusal};
use std::alloc::{AllocError, Global};
use std::{fmt, io};

/// What became of a case.
#[derive(Drop)]
enum Told {
    Number(i128),
    Over,
    Yes,
    No,
    Text(String),
    Wrong,
}

impl fmt::Display for Told {
    fn fmt<W: fmt::Write>(&self, f: &mut fmt::Formatter<W>) -> fmt::Result {
        match self {
            Told::Number(z) => write!(f, "{z}"),
            Told::Over => write!(f, "over"),
            Told::Yes => write!(f, "yes"),
            Told::No => write!(f, "no"),
            Told::Text(text) => write!(f, "{text}"),
            Told::Wrong => write!(f, "no case"),
        }
    }
}

/// A number, or that it leaves 128 bits.
fn number(z: Option<i128>) -> Told {
    match z {
        Some(z) => Told::Number(z),
        None => Told::Over,
    }
}

fn truth(is_so: bool) -> Told {
    if is_so { Told::Yes } else { Told::No }
}

/// The word at a place.
fn word(line: &str, k: usize) -> &str {
    line.split_whitespace().nth(k).unwrap_or("")
}

/// The number at a place, or 0.
fn int(line: &str, k: usize) -> i128 {
    word(line, k).parse::<i128>().unwrap_or(0)
}

fn rule(name: &str, x: i128, y: i128) -> Told {
    match name {
        "add" => number(add(x, y)),
        "sub" => number(sub(x, y)),
        "mul" => number(mul(x, y)),
        "quot" if y != 0 => number(quot(x, y)),
        "rest" if 1 <= y => Told::Number(floor_mod(x, y)),
        "shift" if -127 <= y && y <= 127 => number(shift(x, y as i32)),
        _ => Told::Wrong,
    }
}

/// The total of the numbers of a line, those behind `&` merged.
fn total(alloc: Global, line: &str) -> Result<Told, AllocError> {
    let mut first = Total::empty();
    let mut second = Total::empty();
    let mut merges = false;
    for word in line.split_whitespace().skip(1).take(100) {
        if word == "&" {
            merges = true;
        } else if merges {
            second = plus(second, word);
        } else {
            first = plus(first, word);
        }
    }
    told_total(alloc, first, second)
}

fn plus(total: Total, word: &str) -> Total {
    if total.terms() < 100 {
        total.plus(word.parse::<i128>().unwrap_or(0))
    } else {
        total
    }
}

fn told_total(alloc: Global, first: Total, second: Total) -> Result<Told, AllocError> {
    if first.terms() > 100 || second.terms() > 100 {
        return Ok(Told::Wrong);
    }
    let all = first.merge(&second);
    let value = number(all.value());
    let terms = all.terms();
    Ok(Told::Text(format!(in alloc; "{value}, {terms} terms")?))
}

/// The control vector of the four numbers of a line.
fn control(line: &str) -> Option<ControlVector> {
    let start = i64::try_from(int(line, 1)).ok()?;
    let step = u64::try_from(int(line, 2)).ok()?;
    let modulus = u64::try_from(int(line, 3)).ok()?;
    let divisor = u64::try_from(int(line, 4)).ok()?;
    ControlVector::new(start, step, modulus, divisor)
}

fn control_list(alloc: Global, line: &str) -> Result<Told, AllocError> {
    let mut text = String::new(alloc);
    match control(line) {
        None => text.push_str("not admissible")?,
        Some(v) => {
            let n = u32::try_from(int(line, 6)).unwrap_or(0);
            for z in &v.list(alloc, n.min(100))? {
                append(&mut text, *z)?;
            }
            if text.is_empty() {
                text.push_str("none")?;
            }
        }
    }
    Ok(Told::Text(text))
}

/// Appends a number, behind a blank where something stands already.
fn append(text: &mut String, z: i128) -> Result<(), AllocError> {
    if !text.is_empty() {
        text.push(' ')?;
    }
    write!(text, "{z}")
}

fn control_at(alloc: Global, line: &str) -> Result<Told, AllocError> {
    let Some(v) = control(line) else {
        return Ok(Told::Wrong);
    };
    let z = v.at(u32::try_from(int(line, 6)).unwrap_or(0));
    let (start, step) = (v.start(), v.step());
    let (modulus, divisor) = (v.modulus(), v.divisor());
    let text = format!(in alloc; "{z} of {start} {step} {modulus} {divisor}")?;
    Ok(Told::Text(text))
}

/// What stands between the first and the last quote of a line.
fn quoted(line: &str) -> &str {
    match line.split_once('"') {
        Some((_, rest)) => match rest.rsplit_once('"') {
            Some((text, _)) => text,
            None => rest,
        },
        None => "",
    }
}

/// The path that a text spells.
fn path(alloc: Global, text: &str) -> Result<Path, PathRefusal> {
    if text.len() > 1000 {
        return Err(PathRefusal::NoMemory);
    }
    Path::read(alloc, text)
}

fn told_path(alloc: Global, text: &str) -> Result<Told, AllocError> {
    match path(alloc, text) {
        Ok(path) => copied_path(alloc, &path, text),
        Err(refusal) => Ok(Told::Text(refusal.to_string(alloc)?)),
    }
}

fn copied_path(alloc: Global, path: &Path, text: &str) -> Result<Told, AllocError> {
    let copy = path.copied(alloc)?;
    let told = if copy == *path && copy.text() == text {
        "a path"
    } else {
        "another path"
    };
    Ok(Told::Text(String::from_str(alloc, told)?))
}

fn told_below(alloc: Global, text: &str, above: &str) -> Told {
    match (path(alloc, text), path(alloc, above)) {
        (Ok(path), Ok(above)) => truth(path.starts_with(&above)),
        _ => Told::Wrong,
    }
}

fn told_root(alloc: Global, text: &str) -> Told {
    match path(alloc, text) {
        Ok(path) => truth(path.is_root()),
        Err(_) => Told::Wrong,
    }
}

fn told_stretch(alloc: Global, prefix: &str, text: &str) -> Result<Told, AllocError> {
    match (path(alloc, prefix), path(alloc, text)) {
        (Ok(prefix), Ok(path)) => {
            let PathRange { from, to } = PathRange::of(&[path], &prefix);
            Ok(Told::Text(format!(in alloc; "{from} to {to}")?))
        }
        _ => Ok(Told::Wrong),
    }
}

fn answer(alloc: Global, line: &str) -> Result<Told, AllocError> {
    let name = word(line, 0);
    match name {
        "total" => total(alloc, line),
        "control" => control_list(alloc, line),
        "at" => control_at(alloc, line),
        "shifted" | "scaled" | "divided" | "reduced" => closed::told_closed(alloc, line),
        "infer" => runs::told_runs(alloc, line),
        "starts" => runs::told_starts(alloc, line),
        "next" => Ok(runs::told_next(line)),
        "column" => runs::told_column(alloc, line),
        "pairs" => runs::told_pairs(alloc, line),
        "units" => runs::told_units(alloc, line),
        "path" => told_path(alloc, quoted(line)),
        "below" => Ok(told_below(alloc, word(line, 1), word(line, 2))),
        "root" => Ok(told_root(alloc, word(line, 1))),
        "stretch" => told_stretch(alloc, word(line, 1), word(line, 3)),
        _ => Ok(rule(name, int(line, 1), int(line, 2))),
    }
}

fn main(rt: HostRuntime) -> io::Result<()> {
    for line in rt.lines(rt.alloc()) {
        let line = line?;
        if line.is_empty() || line.starts_with('#') {
            println!(rt; "{line}")?;
        } else {
            let told = answer(rt.alloc(), line.as_str())?;
            println!(rt; "{line}\n    {told}")?;
        }
    }
    Ok(())
}
