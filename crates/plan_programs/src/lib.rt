//! The program of the algebra that holds a plan's answer, as a definition: no code stands here.
//!
//! A program is written part by part: the rows of a table, those for which a condition is true, their groups with the values of their
//! aggregates, and the items in order. Between two parts stands one promise: a vector holds rows or groups at the places whose mark is
//! nonempty, in order, and nothing at the others. The crates `row_lower`, `group_lower` and `plan_lower` write these programs, and those
//! named `lowered_` prove what they hold.
#![tactic(auto)]
