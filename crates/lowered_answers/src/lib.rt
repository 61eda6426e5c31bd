//! The program of a plan holds its answer.
#![tactic(auto)]

pub mod laws;
