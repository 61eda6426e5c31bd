//! What became of a case.

use crate::plans::show_plan;
use case_text::{after, before, spelled};
use control_plan::{ControlKind, ControlRefusal, read_control};
use std::alloc::{AllocError, Global};

/// The answer to a line, indented; nothing where the line is no case.
pub fn answer(alloc: Global, line: &[u8]) -> Result<String, AllocError> {
    let mut out = String::new(alloc);
    match line {
        [] | [b'#', ..] => {}
        _ => show_case(&mut out, alloc, before(line, b' '), after(line, b' '))?,
    }
    Ok(out)
}

fn show_case(out: &mut String, alloc: Global, word: &[u8], case: &[u8]) -> Result<(), AllocError> {
    let text = spelled(alloc, case)?;
    match word {
        b"plan" => show_reading(out, alloc, text.as_slice()),
        _ => out.push_str("    no case\n"),
    }
}

fn show_reading(out: &mut String, alloc: Global, text: &[u8]) -> Result<(), AllocError> {
    if text.len() >= 4294967296 {
        return out.push_str("    too long\n");
    }
    match read_control(alloc, text) {
        Ok(plan) => show_plan(out, &plan),
        Err(ControlRefusal::Bad { line, kind }) => {
            let name = name_of(kind);
            writeln!(out, "    line {line}: {name}: {kind}")
        }
        Err(ControlRefusal::NoMemory) => out.push_str("    no memory\n"),
    }
}

fn name_of(kind: ControlKind) -> &'static str {
    match kind {
        ControlKind::BadWord => "BadWord",
        ControlKind::LineTwice => "LineTwice",
        ControlKind::TooManyLevels => "TooManyLevels",
        ControlKind::BadNumber => "BadNumber",
        ControlKind::NotAdmissible => "NotAdmissible",
    }
}
