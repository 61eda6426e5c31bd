//! Operands and control vectors that several parts use.

ghost use Rattle.std.specs.Prelude.{◌≡◌, IfOk};
ghost use Rattle.program_writers.specs.Statements as spec;

use control_vectors::ControlVector;
use io_edge::{Name, NoMemory};
use program_writers::operators::attribute;
use program_writers::paths::{mark, out};
use programs::Operand;
use std::alloc::Global;

/// What an operator made.
pub fn made(alloc: Global, a: &Name) -> Result<Operand, NoMemory>
    ensures { IfOk result (λ x. x ≡ spec.attribute a.now spec.out) }
{
    let out = out(alloc)?;
    attribute(alloc, a, &out)
}

/// The mark of a vector.
pub fn mark_of(alloc: Global, a: &Name) -> Result<Operand, NoMemory>
    ensures { IfOk result (λ x. x ≡ spec.attribute a.now spec.mark) }
{
    let mark = mark(alloc)?;
    attribute(alloc, a, &mark)
}

/// 0 everywhere.
pub fn zeros() -> ControlVector
    ensures { result ≡ spec.zeros }
{
    match ControlVector::new(0, 0, 0, 1) {
        Some(control) => control,
        None => unreachable!(),
    }
}

/// 1 everywhere.
pub fn ones() -> ControlVector
    ensures { result ≡ spec.ones }
{
    match ControlVector::new(1, 0, 0, 1) {
        Some(control) => control,
        None => unreachable!(),
    }
}
