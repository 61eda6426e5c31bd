//! The generated job: a schema of one table, the table for a seed and a number of rows, and a query of it.
//!
//! It needs no file, so that a run can be tried at any size from two numbers. [`make_table`] gives the table as CSV text: the same for the
//! same numbers. [`made_schema`] and [`made_query`] are the texts that go with it.
#![tactic(auto)]

pub mod laws;
mod rows;
mod texts;

pub use rows::make_table;
pub use texts::{made_query, made_schema};

/// Memory ran out: the one refusal of a call that only allocates.
pub type NoMemory = std::alloc::AllocError;
