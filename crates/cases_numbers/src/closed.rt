//! Cases of the closed operations of control vectors.

use crate::{Told, control, int, word};
use control_vectors::ControlVector;
use std::alloc::{AllocError, Global};

/// What a closed operation makes of the control vector of a line and the number behind it.
pub fn told_closed(alloc: Global, line: &str) -> Result<Told, AllocError> {
    let Some(v) = control(line) else {
        return Ok(Told::Wrong);
    };
    match made(&v, word(line, 0), int(line, 6)) {
        Some(made) => {
            let (start, step) = (made.start(), made.step());
            let (modulus, divisor) = (made.modulus(), made.divisor());
            let text = format!(in alloc; "{start} {step} {modulus} {divisor}")?;
            Ok(Told::Text(text))
        }
        None => Ok(Told::Text(String::from_str(alloc, "none")?)),
    }
}

fn made(v: &ControlVector, name: &str, by: i128) -> Option<ControlVector> {
    match name {
        "shifted" => v.shifted(i64::try_from(by).ok()?),
        "scaled" => v.scaled(u32::try_from(by).ok()?),
        "divided" => v.divided(u32::try_from(by).ok()?),
        _ => v.reduced(u32::try_from(by).ok()?),
    }
}
