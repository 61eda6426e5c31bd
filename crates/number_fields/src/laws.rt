//! The laws of numbers in fields, each stated once, as a contract.

ghost use Rattle.number_fields.specs.Examples.{WorkedDecimals, WorkedIntegers};
ghost use Rattle.number_fields.specs.Laws.{DecimalRule};
ghost use Rattle.number_fields.specs.Ranges.{DecimalRange, IntegerRange};

/// What a decimal stands for: the number that its digits spell, divided by a power of ten for each digit behind the point.
pub fn decimal_rule()
    ensures { DecimalRule }
{}

/// Whole numbers have 64 bits, and decimals at most as many digits as their precision says.
pub fn number_ranges()
    ensures integers { IntegerRange }
    ensures decimals { DecimalRange }
{}

/// Fields and their numbers, worked out.
pub fn worked_numbers()
    ensures integers { WorkedIntegers }
    ensures decimals { WorkedDecimals }
{}
