//! The laws of loaded tables and of plans over them, each stated once, as a contract.

ghost use Rattle.loaded_plans.specs.Laws.{LoadedAnswers, LoadedFit, ReadAnswers};

use plan_laws::laws::{plan_law, prune_law, well_formed_laws};
use read_queries::laws::answer_law;
use table_load::laws::columns_fit;

/// The numbers of loaded tables lie in the intervals of their definitions' columns.
pub fn loaded_fit()
    ensures { LoadedFit }
{
    columns_fit();
}

/// Over loaded tables a well-formed plan has the same answer when its conditions are pushed, and the plan of a typed query, pushed and pruned,
/// has the query's answer: rows or Over.
pub fn loaded_answers()
    ensures { LoadedAnswers }
{
    loaded_fit();
    well_formed_laws();
    plan_law();
    prune_law();
}

/// The plan of a query that is read and typed, pushed and pruned, has the query's answer over loaded tables: rows or Over.
pub fn read_answers()
    ensures { ReadAnswers }
{
    loaded_answers();
    answer_law();
}
