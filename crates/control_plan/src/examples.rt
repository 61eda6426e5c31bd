//! Worked examples of the definitions, each a theorem that the prover computes.

ghost use Rattle.control_plan.specs.Examples.{FileExamples, PlanExamples, RefusalExamples};

/// The usual plan, and plans at their limits and past them.
pub fn plan_examples()
    ensures { PlanExamples }
{}

/// Control files, and the plans that they say.
pub fn file_examples()
    ensures { FileExamples }
{}

/// Control files that are refused, each at its first line that is wrong.
pub fn refusal_examples()
    ensures { RefusalExamples }
{}
