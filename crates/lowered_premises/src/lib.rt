//! What the parts of a plan's program ask of the plan and of its table.
#![tactic(auto)]

pub mod laws;
pub mod plans;
