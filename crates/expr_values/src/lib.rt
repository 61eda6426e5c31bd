//! What the steps of an expression leave at one place of a vector: the value of the expression there.
#![tactic(auto)]

pub mod laws;
