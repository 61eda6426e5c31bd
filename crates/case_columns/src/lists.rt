//! Columns as they are written in a case.

ghost use Rattle.std.specs.Prelude.{◌≤◌, IfOk, vec_len};

use control_vectors::{Slot, SlotSource};
use slot_columns::{Stop, slots_column};
use std::alloc::{AllocError, Global};
use struct_vectors::Column;

/// The slots of a text, at most a thousand.
pub fn slots(alloc: Global, text: &str) -> Result<Vec<Slot>, AllocError>
    ensures { IfOk result (λ v. vec_len v ≤ 1000) }
{
    let mut slots = Vec::new(alloc);
    for word in text.split_whitespace() {
        if word != "/" {
            slots.push(word.parse::<i128>().ok())?;
        }
    }
    slots.truncate(1000);
    Ok(slots)
}

/// The column of a text.
pub fn column(alloc: Global, text: &str) -> Result<Column, AllocError> {
    let slots = slots(alloc, text)?;
    slots_column(alloc, slots.as_slice())
}

/// The number at a place of a text, or 0.
pub fn int(text: &str, k: usize) -> i128 {
    let word = text.split_whitespace().nth(k).unwrap_or("");
    word.parse::<i128>().unwrap_or(0)
}

/// Appends a slot behind a blank.
pub fn show_slot(to: &mut String, slot: Slot) -> Result<(), AllocError> {
    match slot {
        Some(z) => write!(to, " {z}"),
        None => to.push_str(" -"),
    }
}

/// Appends slots, or that there are none.
pub fn show_slots(to: &mut String, slots: &[Slot]) -> Result<(), AllocError> {
    if slots.is_empty() {
        to.push_str(" none")?;
    }
    for slot in slots {
        show_slot(to, *slot)?;
    }
    Ok(())
}

/// Appends what each place of a source gives, or that it has none.
pub fn show<S: SlotSource>(to: &mut String, source: &S) -> Result<(), AllocError> {
    let n = source.len();
    if n == 0 {
        to.push_str(" none")?;
    }
    for i in 0..n {
        match source.slot(i) {
            Ok(slot) => show_slot(to, slot)?,
            Err(_) => to.push_str(" over")?,
        }
    }
    Ok(())
}

/// Appends a column, or that a number leaves 128 bits.
pub fn show_made(to: &mut String, made: Result<Column, Stop>) -> Result<(), AllocError> {
    match made {
        Ok(column) => show(to, &column),
        Err(Stop::Overflow) => to.push_str(" over"),
        Err(Stop::NoMemory) => Err(AllocError),
    }
}
