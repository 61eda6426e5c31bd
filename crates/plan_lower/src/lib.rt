//! From a plan to a program of the algebra that holds its answer.
//!
//! A program is written part by part: the rows of a table, those for which a condition is true, their groups with the values of their
//! aggregates, and the items in order. Between two parts stands one promise: a vector holds rows or groups at the places whose mark is
//! nonempty, in order, and nothing at the others.
#![tactic(auto)]

mod items;
mod lowering;
mod paths;

pub use lowering::lower;
