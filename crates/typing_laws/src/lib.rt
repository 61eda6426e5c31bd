//! What holds of every typed query.
#![tactic(auto)]

pub mod laws;
