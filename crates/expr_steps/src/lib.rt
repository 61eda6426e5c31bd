//! Expressions as steps that work slot by slot.
#![tactic(auto)]

pub mod laws;
mod lowering;
mod pieces;
mod scales;
pub mod steps;

pub use lowering::expr_steps;
pub use steps::{Factors, Source, Step};
