//! Where the attributes of a program's vectors come from: which statement made each, through those that hand attributes on, how far it
//! reaches, and which of them are control attributes, whose four numbers are known before any slot is.
//!
//! The algebra is that of Pirk, Moll, Zaharia and Madden, "Voodoo - A Vector Algebra for Portable Database Performance on Modern Hardware",
//! PVLDB 9(14), 2016. Control vectors are those of its section 2.2.
#![tactic(auto)]

pub mod examples;
pub mod laws;
