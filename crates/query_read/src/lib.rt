//! SQL queries, read.
//!
//! [`read_query`] gives the tree of a query as it is written, or the first refusal. What its names mean is for the layer above.
#![tactic(auto)]

mod atoms;
mod clauses;
mod dates;
mod days;
mod enclosing;
mod expecting;
mod expr;
mod fault;
mod grouping;
pub mod laws;
mod literals;
mod marking;
mod nodes;
mod query;
mod query_text;
mod sources;

pub use query_text::read_query;
