//! That what is expected is never want of memory: a refusal says what is wrong with the words, the files or the numbers.
#![tactic(auto)]

pub mod laws;
