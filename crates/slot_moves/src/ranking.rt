//! Bucket: how many pivots are not above each key.
ghost use Rattle.std.specs.Prelude.{◌≡◌, ◌<◌, ◌++◌, ◌∷◌, [], length, map, slice_index_or, IfOk, OnOk};
ghost use Rattle.std.specs.List.Sorted.{IsPermutation, IsSorted};
ghost use Rattle.std.specs.Ordering.{int_cmp};
ghost use Rattle.control_vectors.specs.Slots.{numbers};
ghost use Rattle.sort_order.specs.Buckets.{bucket};
ghost use Rattle.slot_moves.specs.Moves.{bucketed};

use crate::NoMemory;
use control_vectors::Slot;
use slot_columns::slots_of;
use sort_order::bucket_of;
use std::alloc::Global;
use struct_vectors::Column;

/// The pivots that are not empty, ascending.
pub fn ascending(alloc: Global, pivots: &Column) -> Result<Vec<i128>, NoMemory>
    ensures same { IfOk result (λ found. IsPermutation (numbers pivots.now.slots) found.items) }
    ensures sorted { IfOk result (λ found. IsSorted int_cmp found.items) }
{
    let mut found = numbers_of(alloc, pivots)?;
    found.sort_unstable();
    Ok(found)
}

/// The numbers of the slots that are not empty, in order.
fn numbers_of(alloc: Global, column: &Column) -> Result<Vec<i128>, NoMemory>
    ensures { IfOk result (λ found. found.items ≡ numbers column.now.slots) }
{
    let mut found = Vec::with_capacity(alloc, column.len() as usize)?;
    for i in 0..column.len() {
        push_number(&mut found, column.get(i))?;
    }
    Ok(found)
}

/// Appends the number of a slot, if there is one.
fn push_number(found: &mut Vec<i128>, s: Slot) -> Result<(), NoMemory>
    ensures { OnOk result (found.new.items ≡ found.old.items ++ numbers (s ∷ [])) }
{
    if let Some(x) = s {
        found.push(x)?;
    }
    Ok(())
}

/// For each key how many of the nonempty pivots are not above it; empty for an empty key.
pub fn buckets(alloc: Global, keys: &Column, pivots: &Column) -> Result<Column, NoMemory>
    ensures { IfOk result (λ column. column.slots ≡ bucketed keys.now.slots pivots.now.slots) }
{
    let sorted = ascending(alloc, pivots)?;
    column_of_buckets(alloc, keys, sorted.as_slice())
}

/// For each key how many of the pivots are not above it; empty for an empty key.
fn column_of_buckets(alloc: Global, keys: &Column, pivots: &[i128]) -> Result<Column, NoMemory>
    requires { IsSorted int_cmp pivots.now }
    ensures { IfOk result (λ column. column.slots ≡ map (bucket pivots.now) keys.now.slots) }
{
    slots_of(alloc, keys.len(), |i| bucket_for(keys, pivots, i))
}

/// How many of the pivots are not above the key of a place; empty for an empty key.
fn bucket_for(keys: &Column, pivots: &[i128], i: u32) -> Slot
    requires ascend { IsSorted int_cmp pivots.now }
    requires within { i < length keys.now.slots }
    ensures { result ≡ bucket pivots.now (slice_index_or keys.now.slots i None) }
{
    bucket_of(pivots, keys.get(i))
}
