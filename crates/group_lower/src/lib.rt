//! Groups of rows with the values of their aggregates, as statements of the algebra.
//!
//! What is written is what `plan_programs` defines.
#![tactic(auto)]

mod aggregates;
mod groups;
mod paths;

pub use aggregates::grouped;
