//! What the parts of a plan's program ask of the plan and of its table, each law stated once, as a contract.

ghost use Rattle.lowered_premises.specs.Laws.{ColumnLaw, GroupPlacesLaw, GroupsLaw, MemberLaws, PlacesLaw, RowsLaw, ShapeLaws, SourceLaw, TableLaw};

use expr_values::laws::known_law;
use loaded_plans::laws::loaded_fit;
use sql_types::laws::columns_are_sized;
use table_load::laws::columns_fit;
use value_bounds::laws::never_over;
use value_laws::laws::kind_law;

/// A plan that can be lowered has one source, over a table that is defined and stored.
pub fn source_law()
    ensures { SourceLaw }
{}

/// The columns of the source are its table's, and each column that the plan names is one of them.
pub fn column_law()
    ensures { ColumnLaw }
{}

/// The conditions of the source stand on the rows of its table.
pub fn table_law()
    ensures { TableLaw }
{
    columns_fit();
    columns_are_sized();
}

/// Conditions, arguments, items and keys stand on from-rows that are rows of the table.
pub fn rows_law()
    ensures { RowsLaw }
{
    columns_fit();
    columns_are_sized();
}

/// HAVING, items and keys stand on the groups of such rows.
pub fn groups_law()
    ensures { GroupsLaw }
{
    columns_fit();
    columns_are_sized();
    kind_law();
    known_law();
}

/// The rows and the groups that are left are rows and groups, and no more than a table has.
pub fn member_laws()
    ensures { MemberLaws }
{}

/// Over a base that has a place for each column of the source, expressions have values.
pub fn places_law()
    ensures { PlacesLaw }
{}

/// Over a base that has a place for each group column and each aggregate, HAVING and the items have values.
pub fn group_places_law()
    ensures { GroupPlacesLaw }
{}

/// The answer of a plan over one table, by what its parts make.
pub fn shape_laws()
    ensures { ShapeLaws }
{
    loaded_fit();
    never_over();
}
