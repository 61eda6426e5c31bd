//! When a program obeys a control plan: in which runs it selects rows, through which folds the values of aggregates pass, and how rows are laid
//! out and brought together before they are folded.
//!
//! In Pirk, Moll, Zaharia and Madden, "Voodoo - A Vector Algebra for Portable Database Performance on Modern Hardware", PVLDB 9(14), 2016,
//! section 2.2, control vectors say where a fold's runs begin, and so how much of it can be done side by side. Here it is said of a program which
//! control vectors it has where, however it was written.
#![tactic(auto)]

pub mod examples;
