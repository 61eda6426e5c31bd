//! The values of SQL: what a column of a row holds and an expression gives, in one order.
#![tactic(auto)]

pub mod laws;
