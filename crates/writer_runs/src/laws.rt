//! The laws of parts of a program, each stated once, as a contract.

ghost use Rattle.writer_runs.specs.Laws.{OperatorLaws, KeptLaw, UseLaw, UsedLaws, StandLaws, ResultLaws};

/// One statement makes its operator's vector under a name that is new, or is Over.
pub fn operator_laws()
    ensures { OperatorLaws }
{}

/// What is made stays where names are left alone.
pub fn kept_law()
    ensures { KeptLaw }
{}

/// A program whose statements are used means what they make in order.
pub fn use_law()
    ensures { UseLaw }
{}

/// Used statements compose.
pub fn used_laws()
    ensures { UsedLaws }
{}

/// What results show stands where they come last.
pub fn stand_laws()
    ensures { StandLaws }
{}

/// A program with one result, at its end, means the vector that it shows.
pub fn result_laws()
    ensures { ResultLaws }
{}
