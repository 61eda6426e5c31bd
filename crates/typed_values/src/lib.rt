//! What typed queries say of their values: the least and the greatest that an expression can be and whether it can leave 128 bits.
#![tactic(auto)]

mod interval_rule;
mod intervals;
pub mod laws;
mod scales;

pub use interval_rule::{bounds, cannot_overflow};
pub use intervals::Interval;
