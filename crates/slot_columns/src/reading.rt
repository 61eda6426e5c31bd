//! Slots that are read place by place, by how they are kept.
ghost use Rattle.std.specs.Prelude.{◌≡◌, ℕ, length, slice_index_or, None, Some};
ghost use Rattle.control_vectors.specs.Slots.{Slot};
ghost use Rattle.struct_vectors.specs.Columns.{some_slots, marked_slot, marked_slots};

use control_vectors::Slot;
use struct_vectors::Column;

/// A slot for each place, empty past the last. A loop over places is compiled for each reader, so that it
/// doesn't ask at each place how a column keeps its slots.
pub trait SlotReader {
    /// The slot at each place.
    ghost at: { Self → ℕ → Slot };

    /// The slot at place `i`.
    fn slot(&self, i: u32) -> Slot
        ensures { result ≡ at self.now i };
}

/// A number at every place.
#[derive(Drop)]
pub struct Always {
    pub number: i128,
}

impl SlotReader for Always {
    ghost at = { λ r _. Some r.number };

    fn slot(&self, _i: u32) -> Slot {
        Some(self.number)
    }
}

/// Numbers in 64 bits, none of whose slots is empty.
#[derive(Drop)]
pub struct Narrow<'a> {
    pub numbers: &'a [i64],
}

impl SlotReader for Narrow<'_> {
    ghost at = { λ r i. slice_index_or (some_slots r.numbers.now) i None };

    fn slot(&self, i: u32) -> Slot {
        narrow_slot(self.numbers, i)
    }
}

/// Numbers in 64 bits, each with a mark whether its slot has one.
#[derive(Drop)]
pub struct Marked<'a> {
    pub numbers: &'a [i64],
    pub marks: &'a [bool],
    ghost lengths: { length marks.now ≡ length numbers.now },
}

impl SlotReader for Marked<'_> {
    ghost at = { λ r i. slice_index_or (marked_slots r.numbers.now r.marks.now) i None };

    fn slot(&self, i: u32) -> Slot {
        marked_slot(self.numbers, self.marks, i)
    }
}

/// The slots of any column.
#[derive(Drop)]
pub struct Any<'a> {
    pub column: &'a Column,
}

impl SlotReader for Any<'_> {
    ghost at = { λ r i. slice_index_or r.column.now.slots i None };

    fn slot(&self, i: u32) -> Slot {
        if i < self.column.len() {
            self.column.get(i)
        } else {
            None
        }
    }
}

/// The number of a place, none past the end.
#[inline]
fn narrow_slot(numbers: &[i64], i: u32) -> Slot
    ensures { result ≡ slice_index_or (some_slots numbers.now) i None }
{
    match numbers.get(i as usize) {
        Some(x) => Some(i128::from(*x)),
        None => None,
    }
}

/// The number of a place where its mark is set, none past the end.
#[inline]
fn marked_slot(numbers: &[i64], marks: &[bool], i: u32) -> Slot
    requires { length marks.now ≡ length numbers.now }
    ensures { result ≡ slice_index_or (marked_slots numbers.now marks.now) i None }
{
    let i = i as usize;
    if i < numbers.len() {
        slot_if_set(&numbers[i], marks[i])
    } else {
        None
    }
}

/// A number with its mark as a slot.
#[inline(always)]
fn slot_if_set(number: &i64, mark: bool) -> Slot
    ensures { result ≡ marked_slot number.now mark }
{
    if mark {
        Some(i128::from(*number))
    } else {
        None
    }
}
