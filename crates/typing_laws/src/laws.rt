//! The laws of typing, each stated once, as a contract.

ghost use Rattle.typing_laws.specs.Laws.{ColumnLaw, GroupLaw, TypedLaw};

/// A query that has a typed form is typed: each operator has operands of types that it takes, each aggregate stands at its place with its scale,
/// text literals stand as sides alone, conditions are truths, and no item is one.
pub fn typed_law()
    ensures { TypedLaw }
{}

/// Each column of a query that has a typed form is one of its tables, and has the type of its definition; each table is one of the catalog, and a key
/// join pairs a column to its left with its own key, of one type.
pub fn column_law()
    ensures { ColumnLaw }
{}

/// Outside aggregates the columns of a query with group columns or aggregates are group columns.
pub fn group_law()
    ensures { GroupLaw }
{}
