//! Worked examples of the definitions, each a theorem that the prover computes.

ghost use Rattle.attribute_origins.specs.Examples.{ControlExamples, HandedExamples, OriginExamples};

/// Where attributes come from, and how far they reach.
pub fn origin_examples()
    ensures { OriginExamples }
{}

/// Which statements are control statements.
pub fn control_examples()
    ensures { ControlExamples }
{}

/// Which attributes that are handed on are control attributes.
pub fn handed_examples()
    ensures { HandedExamples }
{}
