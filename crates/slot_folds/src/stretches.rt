//! Folds of one stretch of a column.
ghost use Rattle.std.specs.Prelude.{◌≡◌, ◌+◌, ◌<◌, ◌≤◌, ◌^◌, length, slice_range, false, Ok};
ghost use Rattle.control_vectors.specs.Slots.{Slot, fitted};
ghost use Rattle.control_vectors.specs.Folds.{fold_slots};
ghost use Rattle.control_vectors.specs.declared.FoldKind.{FoldKind};
ghost use Rattle.slot_folds.specs.Jobs.{best_with, plus_slot, sum_slot, is_sum};

use control_vectors::{FoldKind, Over, Slot, Total};
use struct_vectors::Column;

/// The fold of the nonempty slots of a stretch.
pub(crate) fn fold_stretch(
    kind: FoldKind,
    values: &Column,
    from: u32,
    to: u32,
) -> Result<Slot, Over>
    requires order { from ≤ to }
    requires within { to ≤ length values.now.slots }
    ensures { result ≡ fold_slots kind (slice_range values.now.slots from to) }
{
    match kind {
        FoldKind::Sum => total_of_slots(values, from, to),
        FoldKind::Min => Ok(best_of_slots(FoldKind::Min, values, from, to)),
        FoldKind::Max => Ok(best_of_slots(FoldKind::Max, values, from, to)),
    }
}

/// The exact total of the nonempty slots of a stretch.
fn total_of_slots(values: &Column, from: u32, to: u32) -> Result<Slot, Over>
    requires order { from ≤ to }
    requires within { to ≤ length values.now.slots }
    ensures { result ≡ fold_slots FoldKind.Sum (slice_range values.now.slots from to) }
{
    let mut total = Total::empty();
    for i in from..to {
        total = with_slot(total, values.get(i));
    }
    slot_of(&total)
}

/// The least or the greatest of the nonempty slots of a stretch.
fn best_of_slots(kind: FoldKind, values: &Column, from: u32, to: u32) -> Slot
    requires order { from ≤ to }
    requires within { to ≤ length values.now.slots }
    requires best { is_sum kind ≡ false }
    ensures { Ok result ≡ fold_slots kind (slice_range values.now.slots from to) }
{
    let mut best = None;
    for i in from..to {
        best = better(kind, best, values.get(i));
    }
    best
}

/// The lesser or the greater of two slots; the other one where one is empty.
fn better(kind: FoldKind, best: Slot, s: Slot) -> Slot
    ensures { result ≡ best_with kind best s }
{
    match (best, s) {
        (Some(a), Some(b)) => match kind {
            FoldKind::Min => Some(a.min(b)),
            _ => Some(a.max(b)),
        },
        (None, s) => s,
        (best, None) => best,
    }
}

/// A total with one more slot, which adds nothing where it is empty.
pub(crate) fn with_slot(total: Total, slot: Slot) -> Total
    requires { total.terms < 2 ^ 22 }
    ensures { result ≡ plus_slot total slot }
{
    match slot {
        Some(x) => total.plus(x),
        None => total,
    }
}

/// A total as a slot: empty where it adds nothing.
fn slot_of(total: &Total) -> Result<Slot, Over>
    ensures { result ≡ sum_slot total.now }
{
    if total.terms() == 0 {
        return Ok(None);
    }
    in_range(total)
}

/// A total as a slot, `Over` where it leaves 128 bits.
pub(crate) fn in_range(total: &Total) -> Result<Slot, Over>
    ensures { result ≡ fitted total.now.value }
{
    match total.value() {
        Some(sum) => Ok(Some(sum)),
        None => Err(Over),
    }
}
