//! Plans of queries: the parts of a query that its answer is made of, in the form that a program is made from.
//!
//! [`plan`] takes the parts of a typed query over, [`push_filters`] moves conditions to the tables whose rows alone they test, and [`prune`] leaves
//! out the columns that nothing names. Each keeps the query's answer.
#![tactic(auto)]

pub mod laws;
mod plans;
mod prunes;
mod pushes;

pub use plans::{RelPlan, plan};
pub use prunes::prune;
pub use pushes::push_filters;
