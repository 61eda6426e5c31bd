//! The laws of checks, part by part.
#![tactic(auto)]

pub mod laws;
