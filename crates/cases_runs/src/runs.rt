//! Whole runs.

use crate::desk::Desk;
use crate::edge::failing;
use case_text::show_bytes;
use io_edge::{MemoryShelf, MemorySink, Name, SteadyShelf, SteadySink};
use std::alloc::{AllocError, Global};
use voodoo_cmd::run;

const SQL: &str = "voodoo --db s.sql --mode sql --text q.sql";

const ALGEBRA: &str = "voodoo --db s.sql --mode algebra --text q.sql";

/// The run of a query.
pub fn query(
    alloc: Global,
    desk: &mut Desk,
    text: &str,
    to: &mut String,
) -> Result<(), AllocError> {
    desk.put(alloc, "q.sql", text)?;
    words(alloc, desk, SQL, to)
}

/// The run of a program.
pub fn program(
    alloc: Global,
    desk: &mut Desk,
    text: &str,
    to: &mut String,
) -> Result<(), AllocError> {
    desk.put(alloc, "q.sql", text)?;
    words(alloc, desk, ALGEBRA, to)
}

/// The run of these words.
pub fn words(alloc: Global, desk: &Desk, words: &str, to: &mut String) -> Result<(), AllocError> {
    let names = names(alloc, words)?;
    if desk.fails == [0, 0, 0] && desk.out == (1000, 1000) {
        steady_run(alloc, desk, names.as_slice(), to)
    } else {
        failing_run(alloc, desk, names.as_slice(), to)
    }
}

fn names(alloc: Global, words: &str) -> Result<Vec<Name>, AllocError> {
    let mut all = Vec::new(alloc);
    for word in words.split_whitespace() {
        all.push(Name::of(alloc, word)?)?;
    }
    Ok(all)
}

/// A run over a shelf and sinks that never fail.
fn steady_run(
    alloc: Global,
    desk: &Desk,
    words: &[Name],
    to: &mut String,
) -> Result<(), AllocError> {
    let mut out = SteadySink::with_room(alloc, 1000)?;
    let mut err = SteadySink::with_room(alloc, 1000)?;
    let mut shelf = SteadyShelf::new(desk.files(alloc)?);
    let status = run(alloc, words, &mut shelf, &mut out, &mut err);
    tell(to, status.code(), out.bytes(), err.bytes())
}

/// A run over a shelf and sinks that fail as they are told to.
fn failing_run(
    alloc: Global,
    desk: &Desk,
    words: &[Name],
    to: &mut String,
) -> Result<(), AllocError> {
    let [shelf_fails, out_fails, err_fails] = desk.fails;
    let mut out = sink(alloc, desk.out, out_fails)?;
    let mut err = sink(alloc, desk.err, err_fails)?;
    let mut shelf = MemoryShelf::new(desk.files(alloc)?, failing(alloc, shelf_fails)?);
    let status = run(alloc, words, &mut shelf, &mut out, &mut err);
    tell(to, status.code(), out.bytes(), err.bytes())
}

fn sink(alloc: Global, kept: (u32, u32), fails: u32) -> Result<MemorySink, AllocError> {
    let fails = failing(alloc, fails)?;
    MemorySink::with_room(alloc, kept.0 as usize, kept.1.max(1) as usize, fails)
}

/// The exit status, and what was written.
fn tell(to: &mut String, code: u8, out: &[u8], err: &[u8]) -> Result<(), AllocError> {
    write!(to, "    status {code}")?;
    if !out.is_empty() {
        to.push_str(", out ")?;
        show_bytes(to, out)?;
    }
    if !err.is_empty() {
        to.push_str(", err ")?;
        show_bytes(to, err)?;
    }
    to.push('\n')
}
