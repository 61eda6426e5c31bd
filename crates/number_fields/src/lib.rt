//! Numbers in fields of a table's file.
//!
//! [`integer_of`] reads a whole number of 64 bits, and [`decimal_of`] a decimal of so many digits, as the whole number that it is
//! once its point is moved to the end. What neither reads is refused as no number of that form, or as one that is out of range.
#![tactic(auto)]

mod decimals;
mod digits;
mod fault;
mod integers;
pub mod laws;

pub use decimals::decimal_of;
pub use fault::NumberFault;
pub use integers::integer_of;
