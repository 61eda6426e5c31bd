//! What every query that is read is like.
#![tactic(auto)]

pub mod laws;
