//! The laws of folds over runs of rows, each stated once, as a contract.

ghost use Rattle.held_runs.specs.Laws.{FoldLaw, RunLaws, WholeFoldLaw};

/// A fold over columns of rows gives each run's fold where the run begins.
pub fn fold_law<A>()
    ensures { FoldLaw A }
{}

/// Runs are never empty, and are the rows again.
pub fn run_laws<A>()
    ensures { RunLaws A }
{}

/// A fold over one run of all places gives one fold, of all rows.
pub fn whole_fold_law<A>()
    ensures { WholeFoldLaw A }
{}
