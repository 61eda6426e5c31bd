//! The operators that work slot by slot: what two operands give at each place.
//!
//! They are Add, Subtract, Multiply, Divide, Modulo, BitShift, Greater, Equals, LogicalAnd and LogicalOr of
//! Pirk, Moll, Zaharia and Madden, "Voodoo - A Vector Algebra for Portable Database Performance on Modern
//! Hardware", PVLDB 9(14), 2016, table 2, and Fill, which puts the second operand where the first is empty.
#![tactic(auto)]

pub mod pairing;
pub mod rules;
pub mod shifting;
pub mod source;

pub use pairing::pairs;
pub use shifting::shifts;
pub use source::{Source, common_len};
