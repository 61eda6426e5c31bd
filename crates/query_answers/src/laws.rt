//! Worked answers, and the laws of answers, each stated once, as a contract.

ghost use Rattle.query_answers.specs.Examples.{Decimals, Nulls, Rows, Steps, Totals};
ghost use Rattle.query_answers.specs.FoldLaws.{ArgumentLaws, PartLaws, SlotLaws};
ghost use Rattle.query_answers.specs.LoadedKeys.{LoadedKey};
ghost use Rattle.query_answers.specs.Laws.{JoinLaws, KeptLaws, OrderLaws, PlanLaws, RunLaws};

/// Aggregates without GROUP BY, worked out.
pub fn totals()
    ensures { Totals }
{}

/// Conditions, joins and orders, worked out.
pub fn rows()
    ensures { Rows }
{}

/// Nulls as group keys, in conditions and in orders, worked out.
pub fn nulls()
    ensures { Nulls }
{}

/// One answer, step by step.
pub fn steps()
    ensures { Steps }
{}

/// Numbers with digits after the point, in sums and in a comparison, worked out.
pub fn decimals()
    ensures { Decimals }
{}

/// The kept rows of a list in two parts, and of a condition of several parts.
pub fn kept_laws()
    ensures { KeptLaws }
{}

/// The pairs of a cross join, the one row of a key, and conditions on one source's rows alone.
pub fn join_laws()
    ensures { JoinLaws }
{}

/// Groups are the runs of the rows in a stable order of the group columns.
pub fn run_laws()
    ensures { RunLaws }
{}

/// The order is the stable sort by the keys, and the only one.
pub fn order_laws()
    ensures { OrderLaws }
{}

/// Aggregates of a list in two parts, over rows, and as folds over slots.
pub fn fold_laws()
    ensures parts { PartLaws }
    ensures arguments { ArgumentLaws }
    ensures slots { SlotLaws }
{}

/// What a plan may do to a query: leave columns out, and ask conditions of one source's rows alone.
pub fn plan_laws()
    ensures { PlanLaws }
{}

/// No two rows of a loaded table have an equal value in the column of its key.
pub fn loaded_key()
    ensures { LoadedKey }
{}
