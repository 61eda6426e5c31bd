//! The places of Order and Partition: stable sorts of the places of a list of slots.
//!
//! Partition is that of Pirk, Moll, Zaharia and Madden, "Voodoo - A Vector Algebra for Portable Database
//! Performance on Modern Hardware", PVLDB 9(14), 2016, table 2. Order gives the places of some slots in
//! the order of their keys, as SQL-92's ORDER BY has it (ISO/IEC 9075:1992, 13.1), nulls lowest.
#![tactic(auto)]

ghost use Rattle.std.specs.Prelude.{◌≡◌, ◌^◌, ◌<◌, ◌≤◌, ℕ, List, length, slice_get, slice_index_or, Some, None};
ghost use Rattle.sort_order.specs.Keys.{KeyCells, no_key};
ghost use Rattle.control_vectors.specs.Slots.{Cell};

use control_vectors::{Over, Slot};
use std::alloc::AllocError;

mod keyed;
pub mod laws;
pub mod ordering;
pub mod partition;

pub use ordering::order;
pub use partition::{bucket_of, partition_places};

/// Memory ran out: the one refusal of a call that only allocates.
pub type NoMemory = AllocError;

/// Why places are not given.
#[derive(Clone, Copy, Debug, PartialEq, Eq)]
pub enum OrderRefusal {
    /// A slot that has to be read leaves 128 bits.
    Over,
    /// Memory ran out.
    NoMemory,
}

/// At most 16 keys, each with a direction and a cell for each of so many places.
pub trait KeySource {
    /// The keys, the first one deciding before the others.
    ghost keys: { Self → List KeyCells };

    /// How many cells each key has.
    ghost places: { Self → ℕ };

    /// How many keys there are.
    fn count(&self) -> u32
        ensures count { result ≡ length (keys self.now) }
        ensures few { length (keys self.now) ≤ 16 };

    /// How many places there are.
    fn len(&self) -> u32
        ensures len { result ≡ places self.now }
        ensures bounded { places self.now ≤ 2 ^ 22 }
        ensures even { (k : ℕ) → k < length (keys self.now)
            → length (slice_index_or (keys self.now) k no_key).cells ≡ places self.now };

    /// Whether key `k` is turned round.
    fn descending(&self, k: u32) -> bool
        requires { k < length (keys self.now) }
        ensures { result ≡ (slice_index_or (keys self.now) k no_key).descending };

    /// What key `k` gives at place `i`.
    fn slot(&self, k: u32, i: u32) -> Result<Slot, Over>
        requires key { k < length (keys self.now) }
        requires place { i < places self.now }
        ensures { slice_get (slice_index_or (keys self.now) k no_key).cells i ≡ Some result };
}
