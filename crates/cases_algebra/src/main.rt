//! Reads programs of the algebra with what is asked of them, and prints each line and what became of it.
//!
//! | line | what it does |
//! |---|---|
//! | `table .a 1 - 3 \| .b 4 5 6` | from here on the store's table `t` has an attribute or two |
//! | `\| t = Load(t)` | adds a line to the program |
//! | `before` | what was added stands before each program from here on |
//! | `read v = Zip(a, b)` | reads the program with this text behind it, and prints it by the lines on which it stands |
//! | `check v = Zip(t, r)` | checks it: the outline of its last statement, the first vector that is too long, or the refusal |
//! | `reach` | prints for each statement whether a result reaches it |
//! | `run v = Zip(t, r)` | runs it with `Persist(out, v)` behind it, and prints the results' lengths, paths and columns |
//! | `run` | runs it as it stands |
//! | `print`, `size` | runs it, and prints the text of the results; how many bytes it has, and the last ones |
//! | `rows /c1/a,b\|c` | rows of fields as text, each behind a `/` |
//!
//! A text has the escapes of the crate `case_text`. The program is empty again after each but the first three. A line that
//! is empty or begins with `#` is printed as it is.
#![tactic(auto)]

mod checks;
mod desk;
mod rows;
mod runs;
mod texts;

use desk::Desk;
use std::alloc::{AllocError, Global};
use std::io;

/// Does what a line asks, and appends what became of it.
fn serve(alloc: Global, desk: &mut Desk, line: &str, to: &mut String) -> Result<(), AllocError> {
    let (name, rest) = line.split_once(' ').unwrap_or((line, ""));
    match name {
        "table" => desk.set_table(alloc, rest),
        "|" => desk.add_line(alloc, rest),
        "before" => desk.keep(alloc),
        "rows" => rows::rows(alloc, rest, to),
        _ => ask(alloc, desk, name, rest, to),
    }
}

/// What is asked of the program with a text behind it.
fn ask(
    alloc: Global,
    desk: &mut Desk,
    name: &str,
    rest: &str,
    to: &mut String,
) -> Result<(), AllocError> {
    let text = desk.take(alloc, rest)?;
    match name {
        "read" => texts::told(alloc, text.as_slice(), to),
        "check" | "reach" => checks::told(alloc, desk, name, text.as_slice(), to),
        "run" | "print" | "size" => {
            let shown = with_result(alloc, text, rest)?;
            runs::told(alloc, desk, name, shown.as_slice(), to)
        }
        _ => Ok(()),
    }
}

/// A program with a result behind it, where a statement of the line's own stands there.
fn with_result(alloc: Global, text: Vec<u8>, rest: &str) -> Result<Vec<u8>, AllocError> {
    let mut shown = Vec::new(alloc);
    shown.extend_from_slice(text.as_slice())?;
    if !rest.is_empty() {
        shown.extend_from_slice(b"\nPersist(out, v)")?;
    }
    Ok(shown)
}

/// A line, and what became of it.
fn told(alloc: Global, desk: &mut Desk, line: &str) -> Result<String, AllocError> {
    let mut to = String::from_str(alloc, line)?;
    to.push('\n')?;
    if !line.starts_with('#') {
        serve(alloc, desk, line, &mut to)?;
    }
    Ok(to)
}

fn main(rt: HostRuntime) -> io::Result<()> {
    let mut desk = Desk::new(rt.alloc());
    for line in rt.lines(rt.alloc()) {
        let text = told(rt.alloc(), &mut desk, line?.as_str())?;
        print!(rt; "{text}")?;
    }
    Ok(())
}
