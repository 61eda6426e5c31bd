//! Gather: slots by position.
ghost use Rattle.std.specs.Prelude.{◌≡◌, ◌≤◌, ◌^◌, List, length, slice_index_or, None, IfOk};
ghost use Rattle.control_vectors.specs.Slots.{Slot};
ghost use Rattle.slot_columns.specs.Readers.{Reads};
ghost use Rattle.slot_moves.specs.Moves.{gathered, place_in, slot_at};

use crate::NoMemory;
use control_vectors::Slot;
use slot_columns::{Any, Marked, Narrow, SlotReader, slots_of};
use std::alloc::Global;
use struct_vectors::Column;

/// The source's slot at each position. It is empty where the position is, and where the position is no
/// place of the source.
pub fn gather(alloc: Global, source: &Column, positions: &Column) -> Result<Column, NoMemory>
    ensures { IfOk result (λ column. column.slots ≡ gathered source.now.slots positions.now.slots) }
{
    if let Some((numbers, marks)) = source.marked_slices() {
        return gather_from(alloc, &Marked { numbers, marks }, source.len(), positions);
    }
    match source.narrow_slice() {
        Some(numbers) => gather_from(alloc, &Narrow { numbers }, source.len(), positions),
        None => gather_from(alloc, &Any { column: source }, source.len(), positions),
    }
}

/// The same for any reader of the source, which has so many slots.
fn gather_from<S: SlotReader>(
    alloc: Global,
    source: &S,
    len: u32,
    positions: &Column,
) -> Result<Column, NoMemory>
    ensures { (xs : List Slot) → Reads (S.at source.now) xs → length xs ≡ len
        → IfOk result (λ column. column.slots ≡ gathered xs positions.now.slots) }
{
    let n = positions.len();
    if let Some((numbers, marks)) = positions.marked_slices() {
        return gather_read(alloc, source, len, &Marked { numbers, marks }, n);
    }
    match positions.narrow_slice() {
        Some(numbers) => gather_read(alloc, source, len, &Narrow { numbers }, n),
        None => gather_read(alloc, source, len, &Any { column: positions }, n),
    }
}

/// The same for any readers.
fn gather_read<S: SlotReader, P: SlotReader>(
    alloc: Global,
    source: &S,
    len: u32,
    positions: &P,
    n: u32,
) -> Result<Column, NoMemory>
    requires { n ≤ 2 ^ 22 }
    ensures { (xs places : List Slot) → Reads (S.at source.now) xs → length xs ≡ len → Reads (P.at positions.now) places → length places ≡ n
        → IfOk result (λ column. column.slots ≡ gathered xs places) }
{
    slots_of(alloc, n, |i| slot_for(source, len, positions, i))
}

/// The slot at the position of a place.
#[inline]
fn slot_for<S: SlotReader, P: SlotReader>(source: &S, len: u32, positions: &P, i: u32) -> Slot
    ensures { (xs places : List Slot) → Reads (S.at source.now) xs → length xs ≡ len → Reads (P.at positions.now) places
        → result ≡ slot_at xs (slice_index_or places i None) }
{
    slot_of(source, len, positions.slot(i))
}

/// The slot at a position.
#[inline]
fn slot_of<S: SlotReader>(source: &S, len: u32, position: Slot) -> Slot
    ensures { (xs : List Slot) → Reads (S.at source.now) xs → length xs ≡ len → result ≡ slot_at xs position }
{
    match place_of(position, len) {
        Some(i) => source.slot(i),
        None => None,
    }
}

/// The place that a position names among `n`.
#[inline]
pub(crate) fn place_of(position: Slot, n: u32) -> Option<u32>
    ensures { result ≡ place_in n position }
{
    match position {
        Some(p) if 0 <= p && p < i128::from(n) => Some(p as u32),
        _ => None,
    }
}
