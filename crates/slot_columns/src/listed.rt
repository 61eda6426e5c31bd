//! Columns whose slots are listed place by place.
ghost use Rattle.std.specs.Prelude.{◌≡◌, ◌^◌, ◌<◌, ◌≤◌, ℕ, map, length, IfOk};
ghost use Rattle.std.specs.List.{range_with_len};
ghost use Rattle.control_vectors.specs.Slots.{Slot, Cell, all_slots};
ghost use Rattle.slot_columns.specs.Stops.{Exact};

use crate::NoMemory;
use crate::builder::ColumnBuilder;
use crate::narrow::tried;
use crate::stop::Stop;
use control_vectors::{Over, Slot};
use std::alloc::{AllocError, Global};
use struct_vectors::Column;

/// The column of what `f` gives for the places 0 to `n` - 1.
pub fn column_of<F: Fn(u32) -> Result<Slot, Over>>(
    alloc: Global,
    n: u32,
    f: F,
) -> Result<Column, Stop>
    requires few { n ≤ 2 ^ 22 }
    requires callable { (i : ℕ) → i < n → F.pre f i }
    ensures { (cell : ℕ → Cell) → ((i : ℕ) (r : Cell) → i < n → F.post f i r → r ≡ cell i)
        → Exact (λ c. c.slots) result (all_slots (map cell (range_with_len 0 n))) }
{
    match tried(alloc, n, &f) {
        Ok(Some(column)) => Ok(column),
        Ok(None) => built(alloc, n, f),
        Err(stop) => Err(stop),
    }
}

/// The same, slot by slot through a builder.
fn built<F: Fn(u32) -> Result<Slot, Over>>(alloc: Global, n: u32, f: F) -> Result<Column, Stop>
    requires few { n ≤ 2 ^ 22 }
    requires callable { (i : ℕ) → i < n → F.pre f i }
    ensures { (cell : ℕ → Cell) → ((i : ℕ) (r : Cell) → i < n → F.post f i r → r ≡ cell i)
        → Exact (λ c. c.slots) result (all_slots (map cell (range_with_len 0 n))) }
{
    let mut builder = ColumnBuilder::with_room(alloc, n)?;
    for i in 0..n {
        builder.push(f(i)?)?;
    }
    Ok(builder.done())
}

/// The column of the slots that `f` gives for the places 0 to `n` - 1.
pub fn slots_of<F: Fn(u32) -> Slot>(alloc: Global, n: u32, f: F) -> Result<Column, NoMemory>
    requires few { n ≤ 2 ^ 22 }
    requires callable { (i : ℕ) → i < n → F.pre f i }
    ensures { (slot : ℕ → Slot) → ((i : ℕ) (r : Slot) → i < n → F.post f i r → r ≡ slot i)
        → IfOk result (λ column. column.slots ≡ map slot (range_with_len 0 n)) }
{
    let cells = move |i: u32|
        requires { F.pre f i }
    { Ok(f(i)) };
    match column_of(alloc, n, cells) {
        Ok(column) => Ok(column),
        Err(_) => Err(AllocError),
    }
}

/// The column of these slots.
pub fn slots_column(alloc: Global, slots: &[Slot]) -> Result<Column, NoMemory>
    requires { length slots.now ≤ 2 ^ 22 }
    ensures { IfOk result (λ column. column.slots ≡ slots.now) }
{
    let mut builder = ColumnBuilder::with_room(alloc, slots.len() as u32)?;
    for s in slots {
        builder.push(*s)?;
    }
    Ok(builder.done())
}
