//! BitShift: numbers times a power of two.
ghost use Rattle.std.specs.Prelude.{◌≡◌, ◌≤◌, ◌^◌, ◌≤ℤ◌, neg_ℤ, pos, map};
ghost use Rattle.std.specs.List.{range_with_len};
ghost use Rattle.control_vectors.specs.Slots.{all_slots, fitted};
ghost use Rattle.control_vectors.specs.Numbers.{shifted};
ghost use Rattle.slot_columns.specs.Stops.{Exact};
ghost use Rattle.slot_wise.specs.Pairs.{bit_shift_slot};
ghost use Rattle.slot_wise.specs.Sources.{source_at};

use crate::rules::in_range;
use crate::source::{Source, slot_of};
use control_vectors::{Over, Slot, shift};
use slot_columns::{Stop, column_of};
use std::alloc::Global;
use struct_vectors::Column;

/// The farthest that a number is shifted: past it each number but 0 leaves 128 bits on the left, and on
/// the right what is left stays the same.
const FARTHEST: i32 = 127;

/// The floor of `x` * 2^`by` at the places 0 to `n` - 1.
pub fn shifts(alloc: Global, x: Source, by: i32, n: u32) -> Result<Column, Stop>
    requires { n ≤ 2 ^ 22 }
    ensures { Exact (λ c. c.slots) result
        (all_slots (map (λ i. bit_shift_slot by (source_at x.entry i)) (range_with_len 0 n))) }
{
    column_of(alloc, n, |i| shifted_slot(slot_of(x, i), by))
}

/// The floor of `x` * 2^`by`; empty where `x` is.
fn shifted_slot(x: Slot, by: i32) -> Result<Slot, Over>
    ensures { result ≡ bit_shift_slot by x }
{
    match x {
        Some(z) => shifted_number(z, by),
        None => Ok(None),
    }
}

/// The floor of `z` * 2^`by`, or `Over` where it leaves 128 bits.
fn shifted_number(z: i128, by: i32) -> Result<Slot, Over>
    ensures { result ≡ fitted (shifted z by) }
{
    if by > FARTHEST {
        return far_left(z, by);
    }
    if by < -FARTHEST {
        return Ok(Some(far_right(z, by)));
    }
    in_range(shift(z, by))
}

/// 0, or `Over` for any other number.
fn far_left(z: i128, by: i32) -> Result<Slot, Over>
    requires { pos 128 ≤ℤ by }
    ensures { result ≡ fitted (shifted z by) }
{
    if z == 0 { Ok(Some(0)) } else { Err(Over) }
}

/// -1 for a number below 0, or 0.
fn far_right(z: i128, by: i32) -> i128
    requires { by ≤ℤ neg_ℤ (pos 128) }
    ensures { result ≡ shifted z by }
{
    if z < 0 { -1 } else { 0 }
}
