//! The rows of a query's answer.

ghost use Rattle.std.specs.Prelude.{◌≡◌, ◌≤◌, IfErr, IfOk, List, length};
ghost use Rattle.programs.specs.Vectors.{seen_all};
ghost use Rattle.table_load.specs.Values.{Table};
ghost use Rattle.answer_print.specs.Conditions.{HoldsAnswer};
ghost use Rattle.answer_print.specs.Held.{held_text};
ghost use Rattle.answer_texts.specs.Texts.{answer_text};
ghost use Rattle.run_steps.specs.Expected.{query_text, text_outcome};
ghost use Rattle.run_steps.specs.Inputs.{IsRunRefusal};
ghost use Rattle.run_steps.specs.Loaded.{AreTablesOf, HasTables, IsQueryOver};
ghost use Rattle.run_steps.specs.Outcomes.{Meets};
ghost use Rattle.query_runs.specs.Rows.{IsRowsRefusal, rows_text};

use crate::laws::{plans_lower, run_laws};
use crate::lowering::{plan_of_query, results_of_plan};
use run_steps::{FileRole, Status};
use std::alloc::Global;
use table_load::Database;
use typed_trees::TypedQuery;
use voodoo_ops::Results;

/// The results of a query's program, with the query and the tables that they are of.
#[derive(Drop)]
pub struct QueryRows {
    pub database: Database,
    pub query: TypedQuery,
    pub results: Results,
}

/// The rows of a query's answer over the tables of a database. A query over more than one table is not answered yet.
pub fn query_rows(alloc: Global, database: Database, query: TypedQuery) -> Result<QueryRows, Status>
    requires tables { HasTables database }
    requires query { IsQueryOver database.defs query }
    ensures printable { IfOk result (λ r. HoldsAnswer r.query (seen_all r.results)) }
    ensures text { (ts : List Table) → AreTablesOf database ts → Meets rows_text result (query_text ts query) }
    ensures kind { IfErr result IsRowsRefusal }
{
    if query.sources.len() > 1 {
        return Err(Status::NotYet(FileRole::Text));
    }
    match query_results(alloc, &query, &database) {
        Ok(results) => Ok(QueryRows {
            database,
            query,
            results,
        }),
        Err(status) => Err(status),
    }
}

/// The results of the program of a query over one table.
fn query_results(alloc: Global, q: &TypedQuery, db: &Database) -> Result<Results, Status>
    requires tables { HasTables db.now }
    requires query { IsQueryOver db.now.defs q.now }
    requires one_table { length q.now.sources ≤ 1 }
    ensures printable { IfOk result (λ r. HoldsAnswer q.now (seen_all r)) }
    ensures text { (ts : List Table) → AreTablesOf db.now ts → Meets (λ r. held_text db.now.dictionary q.now (seen_all r)) result (text_outcome (answer_text ts q.now)) }
    ensures kind { IfErr result IsRunRefusal }
{
    plans_lower();
    run_laws();
    let p = plan_of_query(alloc, q)?;
    results_of_plan(alloc, &p, db)
}
