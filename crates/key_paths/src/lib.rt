//! Keypaths: the texts that name the attributes of a structured vector.
//!
//! The paper that the algebra comes from (Pirk, Moll, Zaharia and Madden, "Voodoo - A Vector Algebra
//! for Portable Database Performance on Modern Hardware", PVLDB 9(14), 2016, section 2) names each
//! attribute by such a path, as `.price` or `.line.price`. What stands at or below a path is its
//! substructure.
#![tactic(auto)]

use std::alloc::AllocError;

pub mod path;
pub mod ranges;
pub mod reading;
pub mod refusal;

pub use path::Path;
pub use ranges::PathRange;
pub use reading::is_path;
pub use refusal::{PathKind, PathRefusal};

/// Memory ran out: the one refusal of a call that only allocates.
pub type NoMemory = AllocError;
