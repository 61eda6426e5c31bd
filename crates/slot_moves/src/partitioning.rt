//! Partition: where each key goes when the buckets stand one after another.
ghost use Rattle.std.specs.Prelude.{◌≡◌, ◌≤◌, ◌^◌, length, IfOk};
ghost use Rattle.std.specs.List.Sorted.{IsSorted};
ghost use Rattle.std.specs.Ordering.{int_cmp};
ghost use Rattle.control_vectors.specs.Slots.{numbers};
ghost use Rattle.sort_order.specs.Buckets.{partitioned};

use crate::NoMemory;
use crate::ranking::ascending;
use slot_columns::slots_column;
use sort_order::{OrderRefusal, partition_places};
use std::alloc::{AllocError, Global};
use struct_vectors::Column;

/// The most slots of a column.
const MOST_SLOTS: u32 = 1 << 22;

/// For each nonempty key how many have a lower bucket, plus how many earlier ones have the same; empty
/// for an empty key. A key's bucket is the number of nonempty pivots that are not above it.
pub fn partitions(alloc: Global, keys: &Column, pivots: &Column) -> Result<Column, NoMemory>
    ensures { IfOk result (λ column. column.slots ≡ partitioned (numbers pivots.now.slots) keys.now.slots) }
{
    let sorted = ascending(alloc, pivots)?;
    column_of_places(alloc, keys, sorted.as_slice())
}

/// The same for pivots that ascend.
fn column_of_places(alloc: Global, keys: &Column, pivots: &[i128]) -> Result<Column, NoMemory>
    requires { IsSorted int_cmp pivots.now }
    ensures { IfOk result (λ column. column.slots ≡ partitioned pivots.now keys.now.slots) }
{
    let is_short = keys.len() <= MOST_SLOTS;
    prove!(is_short);
    match partition_places(alloc, keys, pivots) {
        Ok(places) => slots_column(alloc, places.as_slice()),
        Err(OrderRefusal::NoMemory) => Err(AllocError),
        Err(OrderRefusal::Over) => unreachable!(),
    }
}
