//! The rows of places.

ghost use Rattle.std.specs.Prelude.{◌≡◌, ◌≤◌, ◌<◌, ◌+◌, ◌^◌, All, length, IfOk, OnOk, OnErr, Err};
ghost use Rattle.std.specs.Io.KnownBytes.{Appends};
ghost use Rattle.io_edge.specs.Faults.{Rose};
ghost use Rattle.io_edge.specs.Sinks.{AppendsPrefix};
ghost use Rattle.answer_print.specs.Conditions.{HoldsValues};
ghost use Rattle.answer_print.specs.Held.{marked_places};
ghost use Rattle.answer_print.specs.Shown.{seen_item, seen_items, shown_text};

use crate::NoMemory;
use crate::fields::fill_row;
use crate::items::Item;
use csv::ByteRecord;
use dict_codes::Dictionary;
use io_edge::{Sink, write_all};
use row_print::{PrintRefusal, RowText};
use std::alloc::Global;
use struct_vectors::Column;

/// About how many fields are put together before they are written: some 64 KiB of text.
const FIELDS_A_PIECE: u32 = 8192;

/// How many places are marked.
pub fn marked_count(marks: &Column) -> u32
    ensures { result ≡ length (marked_places marks.now.slots) }
{
    let mut count = 0;
    for i in 0..marks.len() {
        if marks.get(i).is_some() {
            count += 1;
        }
    }
    count
}

/// Prints the rows of the first places, some at a time.
pub fn write_rows<O: Sink>(
    alloc: Global,
    dictionary: &Dictionary,
    items: &[Item],
    len: u32,
    out: &mut O,
) -> Result<(), PrintRefusal>
    requires few { len ≤ 2 ^ 22 }
    requires within { All (λ it. len ≤ length it.column.now.slots) items.now }
    requires values { All (λ it. HoldsValues len (seen_item it)) items.now }
    ensures whole { OnOk result (Appends (O.written out.old) (O.written out.new) (shown_text dictionary.now (seen_items items.now) 0 len)) }
    ensures prefix { OnErr result (AppendsPrefix (O.written out.old) (O.written out.new) (shown_text dictionary.now (seen_items items.now) 0 len)) }
    ensures later { O.faults out.old ≤ O.faults out.new }
    ensures cause { result ≡ Err PrintRefusal.WriteFault → Rose (O.faults out.old) (O.faults out.new) }
{
    let step = rows_a_piece(items);
    let mut from = 0;
    'pieces: while from < len {
        let count = step.min(len - from);
        let piece = piece_text(alloc, dictionary, items, from, count)?;
        write_all(out, piece.as_slice())?;
        from += count;
    }
    Ok(())
}

/// How many rows are put together before they are written: fewer where a row has more fields.
fn rows_a_piece(items: &[Item]) -> u32
    ensures some { 1 ≤ result }
    ensures bound { result ≤ 8192 }
{
    let fields = items.len().min(8191) as u32 + 1;
    FIELDS_A_PIECE / fields
}

/// The rows of so many places from one on.
fn piece_text(
    alloc: Global,
    dictionary: &Dictionary,
    items: &[Item],
    from: u32,
    count: u32,
) -> Result<Vec<u8>, NoMemory>
    requires few { from + count ≤ 2 ^ 22 }
    requires within { All (λ it. from + count ≤ length it.column.now.slots) items.now }
    requires values { All (λ it. HoldsValues (from + count) (seen_item it)) items.now }
    ensures { IfOk result (λ text. text.items ≡ shown_text dictionary.now (seen_items items.now) from count) }
{
    let mut rows = RowText::new(alloc);
    let mut row = ByteRecord::new(alloc);
    let mut text = Vec::new(alloc);
    for i in from..from + count {
        fill_row(dictionary, items, i, &mut text, &mut row)?;
        rows.add(&row)?;
    }
    rows.into_text()
}
