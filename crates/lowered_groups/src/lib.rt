//! What the parts that write a plan's groups make.
#![tactic(auto)]

pub mod laws;
