//! What a program's check gives.

use crate::desk::Desk;
use crate::texts::read;
use programs::reach::reached_marks;
use programs::{Program, ProgramRefusal, Shape};
use std::alloc::{AllocError, Global};

pub fn told(
    alloc: Global,
    desk: &Desk,
    name: &str,
    text: &[u8],
    to: &mut String,
) -> Result<(), AllocError> {
    match read(alloc, text) {
        Ok(read) => {
            if name == "reach" {
                show_reached(alloc, &read.program, to)
            } else {
                show_check(alloc, desk, &read.program, to)
            }
        }
        Err(refusal) => writeln!(to, "    {refusal}"),
    }
}

fn show_check(
    alloc: Global,
    desk: &Desk,
    program: &Program,
    to: &mut String,
) -> Result<(), AllocError> {
    match program.check(alloc, &desk.store(alloc)?) {
        Ok(shape) => show_shape(&shape, to),
        Err(ProgramRefusal::Bad { statement, kind }) => {
            writeln!(to, "    statement {statement}: {kind:?}")
        }
        Err(ProgramRefusal::NoMemory) => Err(AllocError),
    }
}

/// The outline of the last statement, or the first vector that is too long.
fn show_shape(shape: &Shape, to: &mut String) -> Result<(), AllocError> {
    let last = shape.count();
    if let Some((statement, len)) = shape.limit() {
        return writeln!(to, "    statement {statement}: {len} slots");
    }
    if last == 0 {
        return Ok(());
    }
    write!(to, "    {} places", shape.len_of(last))?;
    for path in shape.paths_of(last) {
        write!(to, " {}", path.text())?;
    }
    to.push('\n')
}

fn show_reached(alloc: Global, program: &Program, to: &mut String) -> Result<(), AllocError> {
    to.push_str("    reached:")?;
    for is_reached in &reached_marks(alloc, program.statements())? {
        to.push_str(if *is_reached { " yes" } else { " no" })?;
    }
    to.push('\n')
}
