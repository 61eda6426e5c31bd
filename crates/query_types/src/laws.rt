//! Worked typings, each table stated once, as a contract.

ghost use Rattle.query_types.specs.Examples.{Arguments, FirstRefusals, KeyJoin, Operands};
ghost use Rattle.query_types.specs.ScaleExamples.{PairTable, ScaleTable};

/// The kinds that operators and aggregates take.
pub fn kinds()
    ensures operands { Operands }
    ensures arguments { Arguments }
{}

/// Queries of which more than one thing is wrong are refused for the first.
pub fn first_refusals()
    ensures { FirstRefusals }
{}

/// What a key join with groups and an order means.
pub fn key_join()
    ensures { KeyJoin }
{}

/// Decimals, IS NULL, COALESCE and COUNT, and the columns of a key join.
pub fn scales()
    ensures expressions { ScaleTable }
    ensures pairs { PairTable }
{}
