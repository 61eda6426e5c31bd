//! Worked examples of the definitions, each a theorem that the prover computes.

ghost use Rattle.control_vectors.specs.Examples.{ClosedExamples, ControlExamples, RunExamples};

/// Where runs begin, and their stretches.
pub fn run_examples()
    ensures { RunExamples }
{}

/// The lists that four numbers give, and where their runs begin.
pub fn control_examples()
    ensures { ControlExamples }
{}

/// What the closed operations give, and where they give none.
pub fn closed_examples()
    ensures { ClosedExamples }
{}
