//! What a program gives when it is run.

use crate::desk::Desk;
use crate::texts::read;
use case_columns::show_vector;
use case_text::show_bytes;
use io_edge::SteadySink;
use programs::Program;
use row_print::write_results;
use std::alloc::{AllocError, Global};
use struct_vectors::Store;
use voodoo_ops::{Results, RunRefusal, run_plain};

pub fn told(
    alloc: Global,
    desk: &Desk,
    name: &str,
    text: &[u8],
    to: &mut String,
) -> Result<(), AllocError> {
    let Ok(read) = read(alloc, text) else {
        return to.push_str("    no program\n");
    };
    match run(alloc, &read.program, &desk.store(alloc)?) {
        None => to.push_str("    no program that can be run\n"),
        Some(Err(RunRefusal::Overflow)) => to.push_str("    over\n"),
        Some(Err(RunRefusal::NoMemory)) => Err(AllocError),
        Some(Ok(results)) => show(alloc, name, &results, to),
    }
}

/// The run of a program that passes the check and has no vector that is too long.
fn run(alloc: Global, program: &Program, store: &Store) -> Option<Result<Results, RunRefusal>> {
    match program.check(alloc, store) {
        Ok(shape) => {
            if shape.limit().is_some() {
                None
            } else {
                Some(run_plain(alloc, program, &shape, store))
            }
        }
        Err(_) => None,
    }
}

fn show(alloc: Global, name: &str, results: &Results, to: &mut String) -> Result<(), AllocError> {
    if name == "run" {
        return show_results(results, to);
    }
    let mut out = SteadySink::with_room(alloc, 70_000)?;
    let is_written = write_results(alloc, results, &mut out).is_ok();
    if name == "print" {
        to.push_str("    ")?;
        show_bytes(to, out.bytes())?;
    } else {
        show_size(to, out.bytes())?;
    }
    to.push_str(if is_written { "\n" } else { ", cut off\n" })
}

fn show_results(results: &Results, to: &mut String) -> Result<(), AllocError> {
    for shown in results.named() {
        write!(to, "    {}:", shown.0.text())?;
        show_vector(to, &shown.1)?;
        to.push('\n')?;
    }
    Ok(())
}

/// How many bytes there are, and the last fifteen.
fn show_size(to: &mut String, bytes: &[u8]) -> Result<(), AllocError> {
    write!(to, "    {} bytes, the last ", bytes.len())?;
    show_bytes(to, &bytes[bytes.len().saturating_sub(15)..])
}
