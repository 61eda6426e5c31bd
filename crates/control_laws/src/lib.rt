//! The law of control vectors' closed operations.
//!
//! An operator that takes a number keeps the four numbers of a control vector known in some cases (Pirk, Moll, Zaharia and Madden,
//! "Voodoo - A Vector Algebra for Portable Database Performance on Modern Hardware", PVLDB 9(14), 2016, section 2.2). That the
//! control vector of these four numbers then lists what the operator makes of each listed value stands here.
#![tactic(auto)]

pub mod laws;

pub use laws::closed_law;
