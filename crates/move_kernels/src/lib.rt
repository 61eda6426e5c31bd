//! Gather, Scatter, Bucket and Cross over a stretch of places, from sources that are read place by place.
//!
//! They are the operators of Pirk, Moll, Zaharia and Madden, "Voodoo - A Vector Algebra for Portable Database Performance on Modern
//! Hardware", PVLDB 9(14), 2016, table 2, as `slot_moves` has them over columns. Here a slot may be computed as it is read, and is
//! then `Over` where it leaves 128 bits; and only the slots from a place on are written, into room that the caller has. No call
//! takes memory.
#![tactic(auto)]

pub mod bucketing;
pub mod crossing;
pub mod examples;
pub mod gathering;
pub mod laws;
mod reading;
pub mod scattering;

pub use bucketing::bucket_into;
pub use crossing::cross_into;
pub use gathering::gather_into;
pub use scattering::scatter_into;
