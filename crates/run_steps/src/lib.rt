//! The steps of a run, each a function of files on a shelf: what its file gives, or the status of its refusal; and the line of a status.
#![tactic(auto)]

mod inputs;
mod line;
mod paths;
mod program_step;
mod query_step;
mod schema_step;
mod status;
mod tables_step;
mod words;

pub use line::write_line;
pub use program_step::{Runnable, read_runnable, results_of};
pub use query_step::read_query_file;
pub use schema_step::read_catalog;
pub use status::{AlgebraCause, FileRole, LimitWhat, QueryCause, SchemaCause, Status, UsageKind};
pub use tables_step::read_tables;
pub use words::{Mode, Request, request_of};
