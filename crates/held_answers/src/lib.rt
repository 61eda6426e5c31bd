//! What is printed of results that hold a query's answer is the answer's text.
#![tactic(auto)]

pub mod laws;
