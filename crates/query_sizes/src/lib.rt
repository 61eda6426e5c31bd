//! How large typed queries are.
#![tactic(auto)]

pub mod laws;
