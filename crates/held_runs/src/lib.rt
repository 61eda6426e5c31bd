//! Folds over the runs of rows that stand in the first places of a vector.
#![tactic(auto)]

pub mod laws;
