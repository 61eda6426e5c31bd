//! The checks of a plan's groups, and that each of their statements is used.
#![tactic(auto)]

pub mod laws;
