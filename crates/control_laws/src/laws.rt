//! The law of the closed operations, for what stands above.

ghost use Rattle.control_laws.specs.Laws.{ClosedLaws};

/// Each closed operation lists what its operator makes of the listed values.
pub fn closed_law()
    ensures { ClosedLaws }
{}
