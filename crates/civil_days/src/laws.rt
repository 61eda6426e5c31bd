//! Worked examples, stated as contracts.

ghost use Rattle.civil_days.specs.Examples.{WorkedDates};

/// The day numbers of some dates, and texts that are none.
pub fn worked_dates()
    ensures { WorkedDates }
{}
