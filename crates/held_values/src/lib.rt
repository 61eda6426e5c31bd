//! Values of expressions, over rows that vectors hold.
#![tactic(auto)]

pub mod laws;
