//! Laws and worked examples, stated as contracts.

ghost use Rattle.query_read.specs.Examples.{WorkedQueries};
ghost use Rattle.query_read.specs.Literals.{LiteralLaw};

/// Short queries with their trees, and texts with their first refusals.
pub fn worked_queries()
    ensures { WorkedQueries }
{}

/// In a text of UTF-8 each text literal has its bytes as its value, with two quotes in a row as one.
pub fn literal_law()
    ensures { LiteralLaw }
{}
