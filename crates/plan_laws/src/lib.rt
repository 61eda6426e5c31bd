//! Plans keep the answers of their queries.
#![tactic(auto)]

pub mod laws;
