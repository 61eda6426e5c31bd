//! The program of a plan over one table obeys its control plan, where that has no layout and no level, and brings groups together by sorting.
//!
//! What it is that a program obeys a plan is said of any program, however it was written. Here it is proved of the program that is written, part
//! by part: each part says what its vectors' attributes come from, and what its statements read, whatever stands behind it.
#![tactic(auto)]

pub mod laws;
