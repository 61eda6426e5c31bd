//! Runs of queries: from a query over one table to the results of its program, which print its answer.
#![tactic(auto)]

pub mod laws;
mod lowering;
mod rows;

pub use rows::{QueryRows, query_rows};
