//! Reads a case from each line, and prints the line and what became of it: whole runs of the top call over files in
//! memory, and the shelves and sinks that it runs over.
//!
//! Files stay on the shelf until they are changed. `q.sql` is the text's file, `s.sql` the schema's.
//!
//! | line | what it does |
//! |---|---|
//! | `file s.sql CREATE ..` | puts a file with this text on the shelf; an empty one takes it off |
//! | `query SELECT ..` | puts the query on the shelf and runs it |
//! | `program t = Load(t)\n..` | puts the program on the shelf and runs it |
//! | `words voodoo --db ..` | runs these words |
//! | `fails 3 0 0` | from here on this call of the shelf, of standard output and of standard error fails; 0 is none |
//! | `sinks 9 2 99 7` | from here on standard output has so much room and takes so many bytes a call, and so standard error |
//! | `take a 3 0` | reads a file up to a limit, where this call of the shelf fails |
//! | `open b` | opens a file, and reads two bytes |
//! | `disk four.csv 4`, `disk-open four.csv` | the same over the real files |
//! | `put 9 2 1 c1/6.` | writes a text to a sink with so much room that takes so many bytes a call, of which one fails |
//! | `steady 4 c1/6.` | writes a text, then a dot, to a sink with so much room, by a call each |
//!
//! The answer of a run is its exit status, and what was written. A text has the escapes of the crate `case_text`. A line
//! that is empty or begins with `#` is printed as it is.
#![tactic(auto)]

mod desk;
mod edge;
mod runs;

use desk::Desk;
use io_edge::{DirShelf, StreamSink, write_all};
use std::alloc::{AllocError, Global};
use std::io;
use std::process::ExitCode;

/// What stands behind the first blank of a line.
fn behind(line: &str) -> &str {
    match line.split_once(' ') {
        Some((_, rest)) => rest,
        None => "",
    }
}

/// The number at a place of a line, or 0.
fn number(line: &str, k: usize) -> u32 {
    let word = line.split_whitespace().nth(k).unwrap_or("");
    word.parse::<u32>().unwrap_or(0)
}

/// Does what a line says, and appends what became of it.
fn serve(alloc: Global, desk: &mut Desk, line: &str, to: &mut String) -> Result<(), AllocError> {
    let rest = behind(line);
    let name = rest.split_whitespace().next().unwrap_or("");
    match line.split_whitespace().next().unwrap_or("") {
        "file" => desk.put(alloc, name, behind(rest)),
        "query" => runs::query(alloc, desk, rest, to),
        "program" => runs::program(alloc, desk, rest, to),
        "words" => runs::words(alloc, desk, rest, to),
        "fails" => Ok(desk.fail(number(line, 1), number(line, 2), number(line, 3))),
        "sinks" => Ok(desk.narrow(
            number(line, 1),
            number(line, 2),
            number(line, 3),
            number(line, 4),
        )),
        "take" => edge::take(alloc, desk, name, number(line, 2), number(line, 3), to),
        "open" => edge::open(alloc, desk, name, to),
        "put" => edge::put(
            alloc,
            [number(line, 1), number(line, 2), number(line, 3)],
            line,
            to,
        ),
        "steady" => edge::steady(alloc, number(line, 1), line, to),
        _ => Ok(()),
    }
}

/// The same over the real files.
fn serve_disk(rt: &HostRuntime, line: &str, to: &mut String) -> Result<(), AllocError> {
    let name = line.split_whitespace().nth(1).unwrap_or("");
    let Ok(disk) = rt.clone() else {
        return Err(AllocError);
    };
    let mut shelf = DirShelf::new(disk);
    match line.split_whitespace().next().unwrap_or("") {
        "disk" => edge::told_read(rt.alloc(), &mut shelf, name, number(line, 2), to),
        "disk-open" => edge::told_open(&mut shelf, name, to),
        _ => Ok(()),
    }
}

/// A line, and what became of it.
fn told(rt: &HostRuntime, desk: &mut Desk, line: &str) -> Result<String, AllocError> {
    let mut to = String::from_str(rt.alloc(), line)?;
    to.push('\n')?;
    if !line.starts_with('#') {
        serve(rt.alloc(), desk, line, &mut to)?;
        serve_disk(rt, line, &mut to)?;
    }
    Ok(to)
}

fn serve_all(rt: &HostRuntime) -> io::Result<()> {
    let mut desk = Desk::new(rt.alloc());
    let mut out = StreamSink::new(rt.stdout());
    for line in rt.lines(rt.alloc()) {
        let text = told(rt, &mut desk, line?.as_str())?;
        if write_all(&mut out, text.as_bytes()).is_err() {
            return Err(io::Error::from(io::ErrorKind::BrokenPipe));
        }
    }
    Ok(())
}

fn main(rt: HostRuntime) -> ExitCode {
    match serve_all(&rt) {
        Ok(()) => ExitCode::SUCCESS,
        Err(_) => ExitCode::FAILURE,
    }
}
