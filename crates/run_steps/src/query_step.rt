//! The step that reads the query.

ghost use Rattle.std.specs.Prelude.{◌≡◌, ◌≤◌, ◌<◌, ◌^◌, IfErr, IfOk, IfSome, Ok, length};
ghost use Rattle.query_types.specs.Typing.{typed_query};
ghost use Rattle.run_steps.specs.Inputs.{HasFileCause, IsQueryRefusal};
ghost use Rattle.run_steps.specs.Loaded.{IsQueryOver};
ghost use Rattle.run_steps.specs.Outcomes.{Meets};
ghost use Rattle.run_steps.specs.Steps as spec;

use crate::inputs::{QUERY_LIMIT, read_file};
use crate::status::{FileRole, QueryCause, Status};
use io_edge::Shelf;
use query_read::read_query;
use query_trees::Query;
use query_types::{TypeRefusal, type_query};
use sql_read::SqlRefusal;
use sql_types::Catalog;
use std::alloc::Global;
use typed_trees::TypedQuery;

/// The query, over the tables of a catalog.
pub fn read_query_file<S: Shelf>(
    alloc: Global,
    shelf: &mut S,
    file: &str,
    catalog: &Catalog,
) -> Result<TypedQuery, Status>
    ensures same_files { S.holds shelf.new ≡ S.holds shelf.old }
    ensures later { S.faults shelf.old ≤ S.faults shelf.new }
    ensures query { IfSome (S.holds shelf.old) (λ files. Meets (λ q. q) result (spec.query_in files file.now catalog.now)) }
    ensures over { IfOk result (IsQueryOver catalog.now) }
    ensures cause { IfErr result (HasFileCause (S.holds shelf.old) FileRole.Text file.now (S.faults shelf.old) (S.faults shelf.new)) }
{
    let bytes = read_file(alloc, shelf, FileRole::Text, QUERY_LIMIT, file)?;
    query_over(alloc, bytes.as_slice(), catalog)
}

/// The query of a text, over the tables of a catalog.
fn query_over(alloc: Global, bytes: &[u8], catalog: &Catalog) -> Result<TypedQuery, Status>
    requires { length bytes.now < 2 ^ 32 }
    ensures query { Meets (λ q. q) result (spec.query_over catalog.now bytes.now) }
    ensures over { IfOk result (IsQueryOver catalog.now) }
    ensures kind { IfErr result IsQueryRefusal }
{
    match read_query(alloc, bytes) {
        Ok(query) => typed(alloc, query, catalog),
        Err(SqlRefusal::NoMemory) => Err(Status::NoMemory),
        Err(SqlRefusal::Bad { at, kind }) => Err(Status::QueryRefused {
            at,
            kind: QueryCause::Text(kind),
        }),
    }
}

/// What the names of a query mean, which is let go.
fn typed(alloc: Global, query: Query, catalog: &Catalog) -> Result<TypedQuery, Status>
    ensures query { Meets (λ q. q) result (spec.typing_outcome (typed_query query catalog.now)) }
    ensures typed { IfOk result (λ q. typed_query query catalog.now ≡ Ok q) }
    ensures kind { IfErr result IsQueryRefusal }
{
    match type_query(alloc, &query, catalog) {
        Ok(typed) => Ok(typed),
        Err(TypeRefusal::NoMemory) => Err(Status::NoMemory),
        Err(TypeRefusal::Bad { at, kind }) => Err(Status::QueryRefused {
            at,
            kind: QueryCause::Typing(kind),
        }),
    }
}
