//! The literals of typed queries are as the grammar has them.
#![tactic(auto)]

pub mod laws;
