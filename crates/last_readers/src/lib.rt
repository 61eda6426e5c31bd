//! The last reader of each vector: behind which of the reached statements no other one mentions it. From
//! there on a run needs the vector no more.
#![tactic(auto)]

use std::alloc::AllocError;

mod last;
pub mod names;

pub use last::{LastReaders, last_readers};
pub use names::{Mentions, mentions_of};

/// Memory ran out: the one refusal of a call that only allocates.
pub type NoMemory = AllocError;
