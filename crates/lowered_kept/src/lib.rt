//! Values over a base, and the rows for which conditions are true.
#![tactic(auto)]

pub mod laws;
