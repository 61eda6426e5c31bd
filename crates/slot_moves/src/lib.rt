//! The operators that move slots: Gather, Scatter, Bucket and Cross of Pirk, Moll, Zaharia and Madden,
//! "Voodoo - A Vector Algebra for Portable Database Performance on Modern Hardware", PVLDB 9(14), 2016,
//! table 2, and the places of Partition.
#![tactic(auto)]

use std::alloc::AllocError;

pub mod cross;
pub mod gathering;
pub mod partitioning;
pub mod ranking;
pub mod scattering;

pub use cross::{left_column, right_column};
pub use gathering::gather;
pub use partitioning::partitions;
pub use ranking::{ascending, buckets};
pub use scattering::writers;

/// Memory ran out: the one refusal of a call that only allocates.
pub type NoMemory = AllocError;
