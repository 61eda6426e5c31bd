//! What holds of the program of a query over one table, each law stated once, as a contract.

ghost use Rattle.query_runs.specs.Runs.{PlansLower, RunLaws};

use held_answers::laws::print_law;
use loaded_plans::laws::read_answers;
use lowered_answers::laws::{answer_law, check_law};
use plan_laws::laws::{size_laws, well_formed_laws};
use query_sizes::laws::size_law;
use typing_laws::laws::column_law;
use written_queries::laws::{lowerable_law, scales_law};

/// The plan of a query over one table, pushed and pruned, can be lowered.
pub fn plans_lower()
    ensures { PlansLower }
{
    read_queries::laws::answer_law();
    well_formed_laws();
    size_laws();
    size_law();
    column_law();
    scales_law();
    lowerable_law();
}

/// The program of such a plan can be run, and its results print the query's answer, or both are Over.
pub fn run_laws()
    ensures { RunLaws }
{
    plans_lower();
    read_answers();
    check_law();
    answer_law();
    scales_law();
    print_law();
}
