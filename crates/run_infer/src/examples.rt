//! Worked examples of the definitions, each a theorem that the prover computes.

ghost use Rattle.run_infer.specs.Examples.{InferredExamples, MarkExamples};

/// What is inferred from four numbers, beside the starts of the runs of their values.
pub fn inferred_examples()
    ensures { InferredExamples }
{}

/// The starts of marks, and the next of them.
pub fn mark_examples()
    ensures { MarkExamples }
{}
