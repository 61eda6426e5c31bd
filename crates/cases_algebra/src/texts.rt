//! Programs as text.

use std::alloc::{AllocError, Global};
use voodoo_text::{ReadProgram, TextRefusal, program_text, read_program};

/// The program of a text that is not too long.
pub fn read(alloc: Global, text: &[u8]) -> Result<ReadProgram, TextRefusal> {
    if text.len() > 16_777_216 {
        return Err(TextRefusal::NoMemory);
    }
    read_program(alloc, text)
}

/// The canonical text of a program, each line behind the line on which it stood, or the refusal.
pub fn told(alloc: Global, text: &[u8], to: &mut String) -> Result<(), AllocError> {
    match read_text(alloc, text) {
        Ok((spelled, numbers)) => show(to, spelled.as_slice(), numbers.as_slice()),
        Err(refusal) => writeln!(to, "    {refusal}"),
    }
}

/// The canonical text of a program, and the lines of its statements.
fn read_text(alloc: Global, text: &[u8]) -> Result<(Vec<u8>, Vec<u32>), TextRefusal> {
    if text.len() > 16_777_216 {
        return Err(TextRefusal::NoMemory);
    }
    let read = read_program(alloc, text)?;
    let numbers = Vec::from_slice(alloc, read.lines.numbers())?;
    let spelled = program_text(alloc, &read.program)?;
    Ok((spelled, numbers))
}

fn show(to: &mut String, text: &[u8], numbers: &[u32]) -> Result<(), AllocError> {
    if text.is_empty() {
        to.push_str("    no statement\n")?;
    }
    let mut rest = numbers;
    let mut begins = true;
    for byte in text {
        if begins {
            rest = show_number(to, rest)?;
        }
        to.push(char::from(*byte))?;
        begins = *byte == b'\n';
    }
    Ok(())
}

/// Appends the first of some numbers, and gives the others.
fn show_number<'a>(to: &mut String, numbers: &'a [u32]) -> Result<&'a [u32], AllocError> {
    match numbers {
        [number, others @ ..] => {
            write!(to, "    {number}: ")?;
            Ok(others)
        }
        [] => Ok(numbers),
    }
}
