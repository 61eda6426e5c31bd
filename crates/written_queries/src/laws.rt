//! What a lowering needs of the expressions of a query, each law stated once, as a contract.

ghost use Rattle.written_queries.specs.Bounds.{BoundedLaw};
ghost use Rattle.written_queries.specs.Laws.{WrittenLaw};
ghost use Rattle.written_queries.specs.Plans.{LowerableLaw, PlanWritten};
ghost use Rattle.written_queries.specs.Scales.{ScalesLaw};

use plan_laws::laws::{size_laws, well_formed_laws};
use read_queries::laws::answer_law;
use sql_types::laws::columns_are_sized;

/// The literals of a query that is read are within bounds: numbers of at most 2^127 - 1 and 18 digits after the point, days of the years 1 to 9999.
pub fn bounded_law()
    ensures { BoundedLaw }
{}

/// In a schema that is read, and has nothing wrong with it, no column has more than 18 digits after its point.
pub fn scales_law()
    ensures { ScalesLaw }
{
    columns_are_sized();
}

/// The literals of a query that is read and typed are as the grammar has them.
pub fn written_law()
    ensures { WrittenLaw }
{
    bounded_law();
}

/// So are those of its plan, pushed and pruned.
pub fn plan_written()
    ensures { PlanWritten }
{
    written_law();
    size_laws();
}

/// Each expression of such a plan can be lowered.
pub fn lowerable_law()
    ensures { LowerableLaw }
{
    plan_written();
    well_formed_laws();
    answer_law();
}
