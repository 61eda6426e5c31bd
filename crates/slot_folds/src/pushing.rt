//! What each fold makes of one run, appended to a column in the making.
ghost use Rattle.std.specs.Prelude.{◌≡◌, ◌+◌, ◌-◌, ◌<◌, ◌≤◌, ◌∷◌, length, map, pos, replicate, slice_range, None, Some, OnOk, IfOk};
ghost use Rattle.std.specs.List.{range_with_len};
ghost use Rattle.control_vectors.specs.Slots.{cells_of};
ghost use Rattle.slot_folds.specs.Folds.{chosen, fold_run, scan_cell, scan_run, select_run};
ghost use Rattle.slot_folds.specs.Jobs.{Extends, grown, picked, places_of, total_at};

use crate::stretches::{fold_stretch, in_range, with_slot};
use control_vectors::{FoldKind, Over, Slot, Total};
use slot_columns::{ColumnBuilder, NoMemory, Stop};
use struct_vectors::Column;

/// Appends the fold of a run, and empty slots for its other places.
pub(crate) fn push_fold(
    builder: &mut ColumnBuilder,
    kind: FoldKind,
    values: &Column,
    from: u32,
    to: u32,
) -> Result<(), Stop>
    requires order { from < to }
    requires within { to ≤ length values.now.slots }
    requires room { length builder.old.slots + (to - from) ≤ builder.old.room }
    ensures { Extends result builder.old builder.new (fold_run kind (slice_range values.now.slots from to)) }
{
    match fold_stretch(kind, values, from, to) {
        Ok(s) => Ok(push_padded(builder, s, to - from - 1)?),
        Err(Over) => Err(Stop::Overflow),
    }
}

/// Appends a slot, and so many empty ones.
fn push_padded(builder: &mut ColumnBuilder, s: Slot, n: u32) -> Result<(), NoMemory>
    requires { length builder.old.slots + n < builder.old.room }
    ensures { OnOk result (builder.new ≡ grown builder.old (s ∷ replicate n None)) }
{
    builder.push(s)?;
    pad(builder, n)
}

/// Appends so many empty slots.
fn pad(builder: &mut ColumnBuilder, n: u32) -> Result<(), NoMemory>
    requires { length builder.old.slots + n ≤ builder.old.room }
    ensures { OnOk result (builder.new ≡ grown builder.old (replicate n None)) }
{
    for k in 0..n {
        builder.push(None)?;
    }
    Ok(())
}

/// Appends the places of a run whose slot is neither empty nor 0, and empty slots for the others.
pub(crate) fn push_select(
    builder: &mut ColumnBuilder,
    values: &Column,
    from: u32,
    to: u32,
) -> Result<(), Stop>
    requires order { from < to }
    requires within { to ≤ length values.now.slots }
    requires room { length builder.old.slots + (to - from) ≤ builder.old.room }
    ensures { Extends result builder.old builder.new
        (cells_of (select_run values.now.slots (slice_range (range_with_len 0 (length values.now.slots)) from to))) }
{
    let kept = push_places(builder, values, from, to)?;
    Ok(pad(builder, to - from - kept)?)
}

/// Appends the places of a stretch whose slot is neither empty nor 0, and gives their number.
fn push_places(
    builder: &mut ColumnBuilder,
    values: &Column,
    from: u32,
    to: u32,
) -> Result<u32, NoMemory>
    requires order { from ≤ to }
    requires within { to ≤ length values.now.slots }
    requires room { length builder.old.slots + (to - from) ≤ builder.old.room }
    ensures pushed { OnOk result (builder.new ≡ grown builder.old
        (places_of (chosen values.now.slots (slice_range (range_with_len 0 (length values.now.slots)) from to)))) }
    ensures count { IfOk result (λ kept. kept ≡ length (chosen values.now.slots (slice_range (range_with_len 0 (length values.now.slots)) from to))) }
    ensures few { IfOk result (λ kept. kept ≤ to - from) }
{
    let mut kept = 0;
    for i in from..to {
        kept += push_place(builder, values.get(i), i)?;
    }
    Ok(kept)
}

/// Appends a place where its slot is neither empty nor 0, and gives how many it appended.
fn push_place(builder: &mut ColumnBuilder, s: Slot, i: u32) -> Result<u32, NoMemory>
    requires { length builder.old.slots < builder.old.room }
    ensures pushed { OnOk result (builder.new ≡ grown builder.old (places_of (picked s i))) }
    ensures count { IfOk result (λ kept. kept ≡ length (picked s i)) }
{
    match s {
        Some(x) if x != 0 => {
            builder.push(Some(i128::from(i)))?;
            Ok(1)
        }
        _ => Ok(0),
    }
}

/// Appends the totals of a run up to each of its places.
pub(crate) fn push_scan(
    builder: &mut ColumnBuilder,
    values: &Column,
    from: u32,
    to: u32,
) -> Result<(), Stop>
    requires order { from < to }
    requires within { to ≤ length values.now.slots }
    requires room { length builder.old.slots + (to - from) ≤ builder.old.room }
    ensures { Extends result builder.old builder.new (scan_run (slice_range values.now.slots from to)) }
{
    let mut total = Total::empty();
    for k in 0..to - from {
        let s = values.get(from + k);
        total = with_slot(total, s);
        match scanned_slot(&total, s) {
            Ok(t) => builder.push(t)?,
            Err(Over) => return Err(Stop::Overflow),
        }
    }
    Ok(())
}

/// A total as a slot, empty where the slot is that it ends with.
fn scanned_slot(total: &Total, s: Slot) -> Result<Slot, Over>
    ensures { result ≡ total_at total.now.value s }
{
    match s {
        Some(_) => in_range(total),
        None => Ok(None),
    }
}
