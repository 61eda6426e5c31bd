//! Shelves and sinks by themselves.

use crate::desk::Desk;
use case_text::show_bytes;
use io_edge::{
    MemoryShelf, MemorySink, OpenRefusal, ReadRefusal, Shelf, Sink, SteadyShelf, SteadySink,
    read_all, write_all,
};
use std::alloc::{AllocError, Global};

/// The list of the one call that fails, where it is not 0.
pub fn failing(alloc: Global, call: u32) -> Result<Vec<u32>, AllocError> {
    let mut calls = Vec::new(alloc);
    if call > 0 {
        calls.push(call)?;
    }
    Ok(calls)
}

/// Reads a file of the desk up to a limit.
pub fn take(
    alloc: Global,
    desk: &Desk,
    name: &str,
    limit: u32,
    fails: u32,
    to: &mut String,
) -> Result<(), AllocError> {
    let files = desk.files(alloc)?;
    if fails == 0 {
        told_read(alloc, &mut SteadyShelf::new(files), name, limit, to)
    } else {
        let calls = failing(alloc, fails)?;
        told_read(alloc, &mut MemoryShelf::new(files, calls), name, limit, to)
    }
}

/// What a shelf gives for a file up to a limit.
pub fn told_read<S: Shelf>(
    alloc: Global,
    shelf: &mut S,
    name: &str,
    limit: u32,
    to: &mut String,
) -> Result<(), AllocError> {
    match read_all(alloc, shelf, name, limit) {
        Ok(bytes) => {
            to.push_str("    read ")?;
            show_bytes(to, bytes.as_slice())?;
            to.push('\n')
        }
        Err(ReadRefusal::ReadFault) => to.push_str("    read fault\n"),
        Err(ReadRefusal::TooLong) => to.push_str("    too long\n"),
        Err(ReadRefusal::NoMemory) => to.push_str("    no memory\n"),
    }
}

/// Opens a file of the desk, and reads two bytes of it.
pub fn open(alloc: Global, desk: &Desk, name: &str, to: &mut String) -> Result<(), AllocError> {
    let files = desk.files(alloc)?;
    told_open(&mut MemoryShelf::new(files, Vec::new(alloc)), name, to)
}

/// What a shelf says when a file is opened, and how many of two bytes it then gives.
pub fn told_open<S: Shelf>(shelf: &mut S, name: &str, to: &mut String) -> Result<(), AllocError> {
    let told = match shelf.open_file(name) {
        Ok(()) => "open",
        Err(OpenRefusal::Missing) => "missing",
        Err(OpenRefusal::Failed) => "failed",
    };
    match shelf.read(&mut [0u8; 2]) {
        Ok(count) => writeln!(to, "    {told}, then {count} bytes"),
        Err(_) => writeln!(to, "    {told}, then a fault"),
    }
}

/// Writes what stands behind the third number of a line to a sink of so much room, which takes so many bytes a call,
/// of which one fails.
pub fn put(alloc: Global, kept: [u32; 3], line: &str, to: &mut String) -> Result<(), AllocError> {
    let text = line.split_whitespace().nth(4).unwrap_or("");
    let [room, most, fails] = kept;
    let calls = failing(alloc, fails)?;
    let mut sink = MemorySink::with_room(alloc, room as usize, most.max(1) as usize, calls)?;
    let told = match write_all(&mut sink, text.as_bytes()) {
        Ok(()) => "whole",
        Err(_) => "fault",
    };
    written(to, told, sink.bytes())
}

fn written(to: &mut String, told: &str, bytes: &[u8]) -> Result<(), AllocError> {
    write!(to, "    {told}, written: ")?;
    if bytes.is_empty() {
        to.push_str("nothing")?;
    }
    show_bytes(to, bytes)?;
    to.push('\n')
}

/// Writes a text, then a dot, to a steady sink of so much room, by a call each.
pub fn steady(alloc: Global, room: u32, line: &str, to: &mut String) -> Result<(), AllocError> {
    let text = line.split_whitespace().nth(2).unwrap_or("");
    let mut sink = SteadySink::with_room(alloc, room as usize)?;
    let first = sink.write(text.as_bytes()).unwrap_or(0);
    let told = match sink.write(b".") {
        Ok(_) => "then a dot",
        Err(_) => "then a fault",
    };
    writeln!(to, "    taken: {first} bytes")?;
    written(to, told, sink.bytes())
}
