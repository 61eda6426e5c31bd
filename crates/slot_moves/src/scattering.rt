//! Scatter: for each place the last of those that name it.
ghost use Rattle.std.specs.Prelude.{◌≡◌, ◌≤◌, ◌^◌, length, map, replicate, false, IfOk};
ghost use Rattle.std.specs.List.{range_with_len};
ghost use Rattle.struct_vectors.specs.Columns.{marked_slots};
ghost use Rattle.slot_moves.specs.Moves.{noted, place_in, writer, writers};

use crate::NoMemory;
use crate::gathering::place_of;
use control_vectors::Slot;
use std::alloc::Global;
use struct_vectors::Column;

/// For each of `n` places the last of the first `sources` places whose position it is, or empty.
/// A Scatter gathers by them.
pub fn writers(alloc: Global, positions: &Column, sources: u32, n: u32) -> Result<Column, NoMemory>
    requires { n ≤ 2 ^ 22 }
    ensures { IfOk result (λ column. column.slots ≡ writers n sources positions.now.slots) }
{
    let mut numbers = vec![in alloc; 0i64; n as usize]?;
    let mut marks = vec![in alloc; false; n as usize]?;
    let k = sources.min(positions.len());
    write_places(numbers.as_mut_slice(), marks.as_mut_slice(), positions, k);
    Ok(Column::narrow_with_empties(numbers, marks))
}

/// Notes at each place the last of the first `k` that name it.
fn write_places(numbers: &mut [i64], marks: &mut [bool], positions: &Column, k: u32)
    requires few { length numbers.old ≤ 2 ^ 22 }
    requires blank { marks.old ≡ replicate (length numbers.old) false }
    requires within { k ≤ length positions.now.slots }
    ensures { marked_slots numbers.new marks.new
        ≡ map (writer positions.now.slots k) (range_with_len 0 (length numbers.old)) }
{
    for j in 0..k {
        note(numbers, marks, positions.get(j), j);
    }
}

/// Notes a number at the place that a position names.
fn note(numbers: &mut [i64], marks: &mut [bool], position: Slot, j: u32)
    requires few { length numbers.old ≤ 2 ^ 22 }
    requires lengths { length marks.old ≡ length numbers.old }
    ensures { marked_slots numbers.new marks.new
        ≡ noted (place_in (length numbers.old) position) j (marked_slots numbers.old marks.old) }
{
    if let Some(i) = place_of(position, numbers.len() as u32) {
        numbers[i as usize] = i64::from(j);
        marks[i as usize] = true;
    }
}
