//! The meaning of programs of the Voodoo vector algebra over structured vectors, and their plain run,
//! operator by operator.
//!
//! The algebra is that of Pirk, Moll, Zaharia and Madden, "Voodoo - A Vector Algebra for Portable
//! Database Performance on Modern Hardware", PVLDB 9(14), 2016. Programs, and what has to hold of them
//! before they run, stand in the crate `programs`; what an operator does with the slots of one column,
//! in the kernels' crates. Here each operator is put together over whole vectors.
#![tactic(auto)]

use std::alloc::AllocError;

mod attributes;
mod evaluate;
mod folds;
mod handing;
mod later;
pub mod laws;
mod made;
mod moves;
mod ranges;
mod reading;
pub mod results;
pub mod run;
mod run_marks;
mod single;
mod slotwise;
mod sorting;
mod zip;

pub use results::Results;
pub use run::{RunRefusal, run_plain};

/// Memory ran out: the one refusal of a call that only allocates.
pub type NoMemory = AllocError;
