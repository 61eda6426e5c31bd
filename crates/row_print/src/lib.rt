//! Answers and results as text: rows of fields, as `csv`'s default writer writes them (RFC 4180).
#![tactic(auto)]

pub mod results;
pub mod row_text;

pub use results::{PrintRefusal, write_results};
pub use row_text::RowText;

/// Memory ran out: the one refusal of a call that only allocates.
pub type NoMemory = std::alloc::AllocError;
