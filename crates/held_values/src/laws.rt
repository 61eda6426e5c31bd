//! The laws of values over rows that vectors hold, each stated once, as a contract.

ghost use Rattle.held_values.specs.Lifted.{LiftLaws};
ghost use Rattle.held_values.specs.Truths.{TruthLaws};

/// The steps of an expression, place by place, make the column of its values, or Over where it is Over on some row.
pub fn lift_laws<A>()
    ensures { LiftLaws A }
{}

/// The conjunction of conditions holds for the rows of which each is true.
pub fn truth_laws<A>()
    ensures { TruthLaws A }
{}
