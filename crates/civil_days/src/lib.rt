//! Civil dates and their day numbers.
//!
//! A date is known by the days from 1970-01-01 to it. [`day_of`] gives the number of a date that a text spells, and [`day_in_range`]
//! asks of a number whether a date has it.
#![tactic(auto)]

mod dates;
pub mod laws;

pub use dates::{day_in_range, day_of};
