//! Vectors while a program runs: one can be taken apart, so that an operator hands its columns on without
//! copying them. What a program loads, and what it names as results, are the vectors of `struct_vectors`.
#![tactic(auto)]

use std::alloc::AllocError;

mod held;

pub use held::HeldVector;

/// Memory ran out: the one refusal of a call that only allocates.
pub type NoMemory = AllocError;
