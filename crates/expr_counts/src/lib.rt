//! How many steps an expression takes.
#![tactic(auto)]

pub mod laws;
