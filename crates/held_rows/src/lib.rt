//! Rows that vectors hold.
#![tactic(auto)]

pub mod laws;
