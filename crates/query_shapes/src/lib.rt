//! The shape of every typed query.
#![tactic(auto)]

pub mod laws;
