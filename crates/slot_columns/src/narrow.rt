//! Columns that are tried in 64 bits.
ghost use Rattle.std.specs.Prelude.{◌≡◌, ◌^◌, ◌<◌, ◌≤◌, ℕ, false, true, not, map, length, vec_len};
ghost use Rattle.std.specs.List.{list_any, range_with_len};
ghost use Rattle.control_vectors.specs.Slots.{Cell, all_slots};
ghost use Rattle.struct_vectors.specs.Columns.{marked_slot, marked_slots};
ghost use Rattle.slot_columns.specs.Stops.{Fills, Tries};

use crate::stop::Stop;
use control_vectors::{Over, Slot};
use std::alloc::Global;
use struct_vectors::Column;

/// The column of what `f` gives for the places 0 to `n` - 1, or none where a number doesn't fit 64 bits.
pub(crate) fn tried<F: Fn(u32) -> Result<Slot, Over>>(
    alloc: Global,
    n: u32,
    f: &F,
) -> Result<Option<Column>, Stop>
    requires few { n ≤ 2 ^ 22 }
    requires callable { (i : ℕ) → i < n → F.pre f.now i }
    ensures { (cell : ℕ → Cell) → ((i : ℕ) (r : Cell) → i < n → F.post f.now i r → r ≡ cell i)
        → Tries result (all_slots (map cell (range_with_len 0 n))) }
{
    let mut numbers = vec![in alloc; 0i64; n as usize]?;
    let mut marks = vec![in alloc; false; n as usize]?;
    match filled(numbers.as_mut_slice(), marks.as_mut_slice(), f) {
        Ok(true) => Ok(Some(narrow_column(numbers, marks))),
        Ok(false) => Ok(None),
        Err(Over) => Err(Stop::Overflow),
    }
}

/// Puts what `f` gives for each place into numbers and marks, and tells whether every number fits 64 bits.
fn filled<F: Fn(u32) -> Result<Slot, Over>>(
    numbers: &mut [i64],
    marks: &mut [bool],
    f: &F,
) -> Result<bool, Over>
    requires few { length numbers.old ≤ 2 ^ 22 }
    requires lengths { length marks.old ≡ length numbers.old }
    requires callable { (i : ℕ) → i < length numbers.old → F.pre f.now i }
    ensures cells { (cell : ℕ → Cell) → ((i : ℕ) (r : Cell) → i < length numbers.old → F.post f.now i r → r ≡ cell i)
        → Fills result numbers.new marks.new (all_slots (map cell (range_with_len 0 (length numbers.old)))) }
{
    for i in 0..numbers.len() {
        match f(i as u32) {
            Ok(s) => {
                let fits = put(&mut numbers[i], &mut marks[i], s);
                if !fits {
                    return Ok(false);
                }
            }
            Err(Over) => return Err(Over),
        }
    }
    Ok(true)
}

/// Puts a slot into a number and its mark, and tells whether it fits 64 bits.
#[inline(always)]
fn put(number: &mut i64, mark: &mut bool, s: Slot) -> bool
    ensures { result ≡ true → marked_slot number.new mark.new ≡ s }
{
    match s {
        Some(x) => match i64::try_from(x) {
            Ok(x) => {
                *number = x;
                *mark = true;
                true
            }
            Err(_) => false,
        },
        None => {
            *mark = false;
            true
        }
    }
}

/// The numbers whose mark is set, and an empty slot for each other one; without marks where all are set.
fn narrow_column(numbers: Vec<i64>, marks: Vec<bool>) -> Column
    requires few { vec_len numbers ≤ 2 ^ 22 }
    requires lengths { vec_len marks ≡ vec_len numbers }
    ensures { result.slots ≡ marked_slots numbers.items marks.items }
{
    if all_set(marks.as_slice()) {
        Column::narrow(numbers)
    } else {
        Column::narrow_with_empties(numbers, marks)
    }
}

/// Whether each mark is set.
fn all_set(marks: &[bool]) -> bool
    ensures { result ≡ true → list_any not marks.now ≡ false }
{
    for mark in marks {
        if !*mark {
            return false;
        }
    }
    true
}
