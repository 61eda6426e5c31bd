//! That plans keep the answers of their queries over loaded tables.
#![tactic(auto)]

pub mod laws;
