//! The relational answer of a query, and its laws.
#![tactic(auto)]

pub mod laws;
