//! The items of a query for each of the rows or groups that stand at a base, in order: the part of a plan's program that makes them makes the rows of the answer, passes the check, and is used.
#![tactic(auto)]

pub mod laws;
