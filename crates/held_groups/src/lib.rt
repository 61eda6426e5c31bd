//! The groups of a query, as runs of rows whose values stand in slots.
#![tactic(auto)]

pub mod laws;
