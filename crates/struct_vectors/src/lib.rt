//! Structured vectors: columns of slots of one length, each named by a path.
//!
//! They are the data model of Pirk, Moll, Zaharia and Madden, "Voodoo - A Vector Algebra for Portable
//! Database Performance on Modern Hardware", PVLDB 9(14), 2016, section 2. A slot may be empty there
//! too.
#![tactic(auto)]

use std::alloc::AllocError;

pub mod columns;
pub mod forms;
pub mod makers;
pub mod shapes;
pub mod stores;
pub mod vectors;

pub use columns::Column;
pub use makers::ColumnMaker;
pub use shapes::ShapeRefusal;
pub use stores::Store;
pub use vectors::StructVector;

/// Memory ran out: the one refusal of a call that only allocates.
pub type NoMemory = AllocError;
