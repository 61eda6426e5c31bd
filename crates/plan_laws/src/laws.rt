//! Worked answers of plans, and the laws of plans, each stated once, as a contract.

ghost use Rattle.plan_laws.specs.Examples.{MovedConditions};
ghost use Rattle.plan_laws.specs.Laws.{PlanLaw, PruneLaw, PushLaw};
ghost use Rattle.plan_laws.specs.Sizes.{SizeLaws};
ghost use Rattle.plan_laws.specs.WellFormed.{WellFormedLaws};

use query_shapes::laws::shape_law;
use typing_laws::laws::{column_law, group_law, typed_law};
use value_laws::laws::names_law;

/// Why a condition that can overflow stays where it is, worked out.
pub fn moved_conditions()
    ensures { MovedConditions }
{}

/// The plan of a query has the query's answer.
pub fn plan_law()
    ensures { PlanLaw }
{}

/// A plan without the columns that nothing names has the same answer.
pub fn prune_law()
    ensures { PruneLaw }
{}

/// A plan whose conditions moved to their sources has the same answer, rows or Over, over tables whose numbers lie in the intervals of their
/// columns' types.
pub fn push_law()
    ensures { PushLaw }
{
    names_law();
}

/// No plan has more nodes than its query, or other aggregates.
pub fn size_laws()
    ensures { SizeLaws }
{}

/// The plan of a typed query is well formed over the definitions of its tables, and stays so when its conditions are pushed and its columns are
/// pruned; and over the tables of these definitions a well-formed plan keeps its answer when its conditions are pushed.
pub fn well_formed_laws()
    ensures { WellFormedLaws }
{
    names_law();
    typed_law();
    column_law();
    group_law();
    shape_law();
}
