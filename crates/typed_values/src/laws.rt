//! Worked evaluations of each operator, each table stated once, as a contract.

ghost use Rattle.typed_values.specs.AggregateExamples.{AggregateTable, RowTable, TextTable};
ghost use Rattle.typed_values.specs.BoundExamples.{IntervalTable, NarrowTable, ScaledIntervalTable, ScaledNarrowTable};
ghost use Rattle.typed_values.specs.Examples.{AndTable, OrTable, NotTable, ComparisonTable, BetweenTable, InTable, NullTable, ChoiceTable, SumTable, QuotientTable, NegativeTable, WholeTable};
ghost use Rattle.typed_values.specs.ScaleExamples.{DecimalTable, ScaledBetweenTable, ScaledChoiceTable, ScaledInTable, ScalesTable};

/// AND, OR and NOT over true, false, unknown and Over.
pub fn truths()
    ensures and { AndTable }
    ensures or { OrTable }
    ensures not { NotTable }
{}

/// The six comparisons of numbers, dates, texts and nulls; BETWEEN, IN and their negations.
pub fn comparisons()
    ensures sides { ComparisonTable }
    ensures betweens { BetweenTable }
    ensures ins { InTable }
{}

/// IS NULL and COALESCE.
pub fn nulls()
    ensures tests { NullTable }
    ensures choices { ChoiceTable }
{}

/// Sums, differences, products, quotients and negatives, up to the ends of 128 bits.
pub fn arithmetic()
    ensures sums { SumTable }
    ensures quotients { QuotientTable }
    ensures negatives { NegativeTable }
{}

/// Operands of several scales.
pub fn scales()
    ensures pairs { ScalesTable }
    ensures betweens { ScaledBetweenTable }
    ensures ins { ScaledInTable }
    ensures choices { ScaledChoiceTable }
{}

/// Expressions of several operators, on a row.
pub fn expressions()
    ensures { WholeTable }
{}

/// Expressions over decimals, on a row.
pub fn decimals()
    ensures { DecimalTable }
{}

/// The counts, sums, least and greatest values and means of some values.
pub fn aggregates()
    ensures lists { AggregateTable }
    ensures texts { TextTable }
{}

/// Aggregates over rows.
pub fn aggregates_of_rows()
    ensures { RowTable }
{}

/// The least and the greatest that expressions can be.
pub fn intervals()
    ensures { IntervalTable }
{}

/// The least and the greatest that expressions over decimals can be.
pub fn scaled_intervals()
    ensures { ScaledIntervalTable }
{}

/// Which expressions cannot overflow.
pub fn narrow()
    ensures { NarrowTable }
{}

/// Which expressions over decimals cannot overflow.
pub fn scaled_narrow()
    ensures { ScaledNarrowTable }
{}
