//! Columns that are made slot by slot, and what the calls that make them say: they give just what was
//! meant, or stop where a number leaves 128 bits or memory runs out.
#![tactic(auto)]

use std::alloc::AllocError;

pub mod builder;
pub mod listed;
mod narrow;
pub mod reading;
pub mod stop;

pub use builder::ColumnBuilder;
pub use listed::{column_of, slots_column, slots_of};
pub use reading::{Always, Any, Marked, Narrow, SlotReader};
pub use stop::Stop;

/// Memory ran out: the one refusal of a call that only allocates.
pub type NoMemory = AllocError;
