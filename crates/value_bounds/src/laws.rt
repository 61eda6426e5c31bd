//! The laws of intervals, each stated once, as a contract.

ghost use Rattle.value_bounds.specs.Laws.{NeverOver, ValueLaw};

/// An expression that cannot overflow has a value on each row that fits its columns, and a number lies within its interval.
pub fn value_law()
    ensures { ValueLaw }
{}

/// An expression that cannot overflow is Over on no row that fits its columns.
pub fn never_over()
    ensures { NeverOver }
{}
