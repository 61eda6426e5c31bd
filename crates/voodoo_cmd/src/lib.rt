//! The top call: from the words of the command line, a shelf of files and two sinks to a status.
#![tactic(auto)]

mod top;

pub use run_steps::{FileRole, LimitWhat, QueryCause, SchemaCause, Status, UsageKind};
pub use top::run;
