//! The laws of what parts of a program make, and of which of its statements are used.
#![tactic(auto)]

pub mod laws;
