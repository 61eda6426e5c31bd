//! The operators on two operands.
ghost use Rattle.std.specs.Prelude.{◌≡◌, ◌≤◌, ◌^◌, map, slice_index_or, None};
ghost use Rattle.std.specs.List.{range_with_len};
ghost use Rattle.control_vectors.specs.Slots.{Slot, Cell, all_slots};
ghost use Rattle.slot_columns.specs.Stops.{Exact};
ghost use Rattle.slot_wise.specs.Pairs.{pair_slot};
ghost use Rattle.slot_wise.specs.Sources.{source_at};

use crate::rules::{
    added, both_hold, divided, either_holds, filled, is_equal, is_greater, multiplied, reduced,
    subtracted,
};
use crate::source::Source;
use control_vectors::{Over, PairKind, Slot};
use slot_columns::{Always, Any, Marked, Narrow, SlotReader, Stop, column_of};
use std::alloc::Global;
use struct_vectors::Column;

/// What the operator gives at the places 0 to `n` - 1.
pub fn pairs(alloc: Global, kind: PairKind, x: Source, y: Source, n: u32) -> Result<Column, Stop>
    requires { n ≤ 2 ^ 22 }
    ensures { Exact (λ c. c.slots) result
        (all_slots (map (λ i. pair_slot kind (source_at x.entry i) (source_at y.entry i)) (range_with_len 0 n))) }
{
    match kind {
        PairKind::Add => pairs_by(alloc, x, y, n, added),
        PairKind::Subtract => pairs_by(alloc, x, y, n, subtracted),
        PairKind::Multiply => pairs_by(alloc, x, y, n, multiplied),
        PairKind::Divide => pairs_by(alloc, x, y, n, divided),
        PairKind::Modulo => pairs_by(alloc, x, y, n, reduced),
        PairKind::Greater => pairs_by(alloc, x, y, n, is_greater),
        PairKind::Equals => pairs_by(alloc, x, y, n, is_equal),
        PairKind::LogicalAnd => pairs_by(alloc, x, y, n, both_hold),
        PairKind::LogicalOr => pairs_by(alloc, x, y, n, either_holds),
        PairKind::Fill => pairs_by(alloc, x, y, n, filled),
    }
}

/// What a rule for two slots gives at the places 0 to `n` - 1.
fn pairs_by<F: Fn(Slot, Slot) -> Result<Slot, Over>>(
    alloc: Global,
    x: Source,
    y: Source,
    n: u32,
    rule: F,
) -> Result<Column, Stop>
    requires few { n ≤ 2 ^ 22 }
    requires callable { F.IsAlwaysCallable rule }
    ensures { (slot : Slot → Slot → Cell) → ((a b : Slot) (r : Cell) → F.post rule a b r → r ≡ slot a b)
        → Exact (λ c. c.slots) result
        (all_slots (map (λ i. slot (source_at x.entry i) (source_at y.entry i)) (range_with_len 0 n))) }
{
    match x {
        Source::Number(number) => pairs_from(alloc, &Always { number }, y, n, rule),
        Source::Column(c) => pairs_of_column(alloc, c, y, n, rule),
    }
}

/// The same for a column as the first operand, by how it keeps its slots.
fn pairs_of_column<F: Fn(Slot, Slot) -> Result<Slot, Over>>(
    alloc: Global,
    c: &Column,
    y: Source,
    n: u32,
    rule: F,
) -> Result<Column, Stop>
    requires few { n ≤ 2 ^ 22 }
    requires callable { F.IsAlwaysCallable rule }
    ensures { (slot : Slot → Slot → Cell) → ((a b : Slot) (r : Cell) → F.post rule a b r → r ≡ slot a b)
        → Exact (λ c. c.slots) result
        (all_slots (map (λ i. slot (slice_index_or c.now.slots i None) (source_at y.entry i)) (range_with_len 0 n))) }
{
    if let Some((numbers, marks)) = c.marked_slices() {
        return pairs_from(alloc, &Marked { numbers, marks }, y, n, rule);
    }
    match c.narrow_slice() {
        Some(numbers) => pairs_from(alloc, &Narrow { numbers }, y, n, rule),
        None => pairs_from(alloc, &Any { column: c }, y, n, rule),
    }
}

/// The same for any reader of the first operand.
fn pairs_from<X: SlotReader, F: Fn(Slot, Slot) -> Result<Slot, Over>>(
    alloc: Global,
    x: &X,
    y: Source,
    n: u32,
    rule: F,
) -> Result<Column, Stop>
    requires few { n ≤ 2 ^ 22 }
    requires callable { F.IsAlwaysCallable rule }
    ensures { (slot : Slot → Slot → Cell) → ((a b : Slot) (r : Cell) → F.post rule a b r → r ≡ slot a b)
        → Exact (λ c. c.slots) result
        (all_slots (map (λ i. slot (X.at x.now i) (source_at y.entry i)) (range_with_len 0 n))) }
{
    match y {
        Source::Number(number) => pairs_read(alloc, x, &Always { number }, n, rule),
        Source::Column(c) => pairs_with_column(alloc, x, c, n, rule),
    }
}

/// The same for a column as the second operand, by how it keeps its slots.
fn pairs_with_column<X: SlotReader, F: Fn(Slot, Slot) -> Result<Slot, Over>>(
    alloc: Global,
    x: &X,
    c: &Column,
    n: u32,
    rule: F,
) -> Result<Column, Stop>
    requires few { n ≤ 2 ^ 22 }
    requires callable { F.IsAlwaysCallable rule }
    ensures { (slot : Slot → Slot → Cell) → ((a b : Slot) (r : Cell) → F.post rule a b r → r ≡ slot a b)
        → Exact (λ c. c.slots) result
        (all_slots (map (λ i. slot (X.at x.now i) (slice_index_or c.now.slots i None)) (range_with_len 0 n))) }
{
    if let Some((numbers, marks)) = c.marked_slices() {
        return pairs_read(alloc, x, &Marked { numbers, marks }, n, rule);
    }
    match c.narrow_slice() {
        Some(numbers) => pairs_read(alloc, x, &Narrow { numbers }, n, rule),
        None => pairs_read(alloc, x, &Any { column: c }, n, rule),
    }
}

/// The same for any readers.
fn pairs_read<X: SlotReader, Y: SlotReader, F: Fn(Slot, Slot) -> Result<Slot, Over>>(
    alloc: Global,
    x: &X,
    y: &Y,
    n: u32,
    rule: F,
) -> Result<Column, Stop>
    requires few { n ≤ 2 ^ 22 }
    requires callable { F.IsAlwaysCallable rule }
    ensures { (slot : Slot → Slot → Cell) → ((a b : Slot) (r : Cell) → F.post rule a b r → r ≡ slot a b)
        → Exact (λ c. c.slots) result
        (all_slots (map (λ i. slot (X.at x.now i) (Y.at y.now i)) (range_with_len 0 n))) }
{
    column_of(alloc, n, |i| rule(x.slot(i), y.slot(i)))
}
