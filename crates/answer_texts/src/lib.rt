//! The text of a query's relational answer, and its laws.
#![tactic(auto)]

pub mod laws;
