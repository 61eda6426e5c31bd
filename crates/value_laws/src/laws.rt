//! The laws of the values of typed expressions, each stated once, as a contract.

ghost use Rattle.value_laws.specs.Laws.{KindLaw, NamesLaw};

/// The value of a typed expression, where it is not Over, is of the expression's kind or null.
pub fn kind_law()
    ensures { KindLaw }
{}

/// A value depends on the columns and the aggregates that the expression names, and on nothing else.
pub fn names_law()
    ensures { NamesLaw }
{}
