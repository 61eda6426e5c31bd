//! The statements that are made of an expression's steps: they pass the check, they make the value, and each is used.
#![tactic(auto)]

pub mod laws;
