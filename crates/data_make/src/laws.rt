//! Worked rows, and what the job is loaded as, each stated once, as a contract.

ghost use Rattle.data_make.specs.Answers.{WorkedAnswer};
ghost use Rattle.data_make.specs.Examples.{WorkedTables};
ghost use Rattle.data_make.specs.Loading.{SchemaIsACatalog, SchemaIsRead, TablesLoad};
ghost use Rattle.data_make.specs.Query.{QueryIsRead, QueryIsTyped};

use answer_texts::laws::date_law;

/// The rows of some seeds, and the ends of the dates.
pub fn worked_tables()
    ensures { WorkedTables }
{
    date_law();
}

/// The schema is read and nothing is wrong with it, and every table is loaded by it: none of the job is refused.
pub fn job_is_loaded()
    ensures schema { SchemaIsRead }
    ensures catalog { SchemaIsACatalog }
    ensures tables { TablesLoad }
{
    date_law();
}

/// The answer of the job of two rows, worked out.
pub fn worked_answer()
    ensures { WorkedAnswer }
{}

/// The query is read, and typed over the made table.
pub fn query_is_read()
    ensures read { QueryIsRead }
    ensures typed { QueryIsTyped }
{}
