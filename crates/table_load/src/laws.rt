//! The laws of tables, each stated once, as a contract.

ghost use Rattle.table_load.specs.ColumnTypes.{ColumnsFit};
ghost use Rattle.table_load.specs.Examples.{WorkedColumns, WorkedFields, WorkedTables};
ghost use Rattle.table_load.specs.Rules.{OneAnswer, TableRule};

/// The records behind a header make rows, each by its own fields and the keys of the rows before it; or the first that is
/// refused decides. And what fits this rule is the answer.
pub fn table_rule()
    ensures rule { TableRule }
    ensures one { OneAnswer }
{}

/// Each row of a table has a value for each column that the column's type allows, and a null only where the column may hold nulls.
pub fn columns_fit()
    ensures { ColumnsFit }
{}

/// What fields, records and rows give, worked out.
pub fn worked_tables()
    ensures fields { WorkedFields }
    ensures tables { WorkedTables }
    ensures columns { WorkedColumns }
{}
