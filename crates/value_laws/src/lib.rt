//! What the type of an expression says of its value, and what a value depends on.
#![tactic(auto)]

pub mod laws;
