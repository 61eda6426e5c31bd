//! Worked examples, stated as contracts.

ghost use Rattle.sql_read.specs.Examples.{WorkedSchemas};

/// Texts with their tokens, schemas with their definitions, and texts with their first refusals.
pub fn worked_schemas()
    ensures { WorkedSchemas }
{}
