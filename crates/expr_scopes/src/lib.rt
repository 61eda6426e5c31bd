//! What the steps of an expression read: only what stands before them, and each step that they make.
#![tactic(auto)]

pub mod laws;
