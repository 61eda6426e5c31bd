//! The laws of the rows that are loaded, each stated once, as a contract.

ghost use Rattle.lowered_stages.specs.Parts.{RowsPasses, RowsRuns, RowsUses};

/// The rows of a table stand in order at the vector that they are loaded into.
pub fn rows_runs()
    ensures { RowsRuns }
{}

/// The statements that load rows are never Over.
pub fn rows_uses()
    ensures { RowsUses }
{}

/// They pass their check.
pub fn rows_passes()
    ensures { RowsPasses }
{}
