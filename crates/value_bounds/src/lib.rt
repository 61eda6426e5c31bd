//! What the interval of an expression says of its value.
#![tactic(auto)]

pub mod laws;
