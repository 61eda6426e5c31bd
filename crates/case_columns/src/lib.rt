//! Columns and vectors as they are written in a line of a case.
//!
//! A column is its slots, `-` for an empty one; an attribute is its path, then its column.
#![tactic(auto)]

mod lists;
mod vectors;

pub use lists::{column, int, show, show_made, show_slots, slots};
pub use vectors::{len_of, path, show_vector, store, vector};
