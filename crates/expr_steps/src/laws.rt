//! Worked code, stated once, as a contract.

ghost use Rattle.expr_steps.specs.Examples.{StepsTable};

/// Expressions of each form, and their steps.
pub fn worked()
    ensures { StepsTable }
{}
