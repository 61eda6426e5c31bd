//! The law of the columns of a query's plan, stated once, as a contract.

ghost use Rattle.lowered_premises.specs.Plans.{FewColumnsLaw};

use typing_laws::laws::column_law;

/// In the plan of a query that is typed over a catalog, pushed and pruned, no source has more columns than a table.
pub fn few_columns_law()
    ensures { FewColumnsLaw }
{
    column_law();
}
