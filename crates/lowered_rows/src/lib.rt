//! The rows of a table, as a part of a plan's program loads them.
#![tactic(auto)]

pub mod laws;
