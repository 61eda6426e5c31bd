//! The rows of a table, and those of them for which conditions are true, as statements of the algebra.
//!
//! What is written is what `plan_programs` defines.
#![tactic(auto)]

pub mod parts;
mod paths;
pub mod rows;
pub mod sites;

pub use rows::{kept, rows_of};
pub use sites::{Base, value_of};
