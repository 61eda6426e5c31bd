//! Where runs begin: in a control vector, and in columns that stand side by side.
//!
//! A fold goes over runs of equal neighbours, and its control vector is there to say where they begin (Pirk, Moll, Zaharia and
//! Madden, "Voodoo - A Vector Algebra for Portable Database Performance on Modern Hardware", PVLDB 9(14), 2016, section 2.2). The
//! four numbers of a control vector often tell it without a look at its values: `infer` says when. Whatever tells where runs begin
//! is a `RunMarks`, of which `next_start` and `run_starts` ask.
#![tactic(auto)]

use std::alloc::AllocError;

pub mod control_runs;
pub mod examples;
pub mod inferring;
pub mod laws;
pub mod marks;
pub mod starting;
pub mod tuple_runs;

pub use control_runs::ControlRuns;
pub use inferring::{Runs, infer};
pub use marks::RunMarks;
pub use starting::{next_start, run_starts};
pub use tuple_runs::TupleRuns;

/// Memory ran out: the one refusal of a call that only allocates.
pub type NoMemory = AllocError;
