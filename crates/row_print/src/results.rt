//! The named results of a program, printed.

ghost use Rattle.std.specs.Prelude.{◌≡◌, ◌≤◌, ◌<◌, ◌+◌, ◌^◌, ◌++◌, ◌∷◌, [], length, map, IfOk, OnOk, OnErr, Err};
ghost use Rattle.std.specs.Fmt.{decimal};
ghost use Rattle.std.specs.List.{All};
ghost use Rattle.std.specs.Io.KnownBytes.{Appends};
ghost use Rattle.csv.specs.Records.{fields_of, partial_of};
ghost use Rattle.io_edge.specs.Faults.{Rose};
ghost use Rattle.io_edge.specs.Sinks.{AppendsPrefix};
ghost use Rattle.programs.specs.Vectors.{seen, seen_all};
ghost use Rattle.row_print.specs.Results.{results_text, result_rows, rows_text, head_rows, place_row, place_rows, slot_field, slots_in};

use crate::NoMemory;
use crate::row_text::RowText;
use control_vectors::Slot;
use csv::ByteRecord;
use io_edge::{Failed, Name, Sink, write_all};
use itoa::Buffer;
use key_paths::Path;
use std::alloc::{AllocError, Global};
use struct_vectors::{Column, StructVector};
use voodoo_ops::Results;

/// Why printing stopped. The sink has gained a prefix of the text.
#[derive(Clone, Copy)]
pub enum PrintRefusal {
    /// Writing failed.
    WriteFault,
    /// Memory ran out.
    NoMemory,
}

impl From<AllocError> for PrintRefusal {
    ghost use Rattle.std.specs.Prelude.{◌≡◌};
    ghost use Rattle.row_print.specs.declared.results.PrintRefusal.TheVariants.{NoMemory};

    ghost from_gives = { λ _ refusal. refusal ≡ NoMemory };

    fn from(_error: AllocError) -> PrintRefusal {
        PrintRefusal::NoMemory
    }
}

impl From<Failed> for PrintRefusal {
    ghost use Rattle.std.specs.Prelude.{◌≡◌};
    ghost use Rattle.row_print.specs.declared.results.PrintRefusal.TheVariants.{WriteFault};

    ghost from_gives = { λ _ refusal. refusal ≡ WriteFault };

    fn from(_fault: Failed) -> PrintRefusal {
        PrintRefusal::WriteFault
    }
}

/// About how many fields are put together before they are written: some 64 KiB of text.
const FIELDS_A_PIECE: u32 = 8192;

/// Prints the results of a program in their order: for each a row of its name and length, a row of `slot` and
/// its paths, then a row for each place, of the place's number from 0 and its slots, an empty slot
/// as an empty field.
pub fn write_results<O: Sink>(alloc: Global, r: &Results, out: &mut O) -> Result<(), PrintRefusal>
    ensures whole { OnOk result (Appends (O.written out.old) (O.written out.new) (results_text (seen_all r.now))) }
    ensures prefix { OnErr result (AppendsPrefix (O.written out.old) (O.written out.new) (results_text (seen_all r.now))) }
    ensures later { O.faults out.old ≤ O.faults out.new }
    ensures cause { result ≡ Err PrintRefusal.WriteFault → Rose (O.faults out.old) (O.faults out.new) }
{
    for e in r.named() {
        write_result(alloc, &e.0, &e.1, out)?;
    }
    Ok(())
}

/// Prints one vector under its name.
pub(crate) fn write_result<O: Sink>(
    alloc: Global,
    name: &Name,
    v: &StructVector,
    out: &mut O,
) -> Result<(), PrintRefusal>
    ensures whole { OnOk result (Appends (O.written out.old) (O.written out.new) (rows_text (result_rows (name.now, seen v.now)))) }
    ensures prefix { OnErr result (AppendsPrefix (O.written out.old) (O.written out.new) (rows_text (result_rows (name.now, seen v.now)))) }
    ensures later { O.faults out.old ≤ O.faults out.new }
    ensures cause { result ≡ Err PrintRefusal.WriteFault → Rose (O.faults out.old) (O.faults out.new) }
{
    let head = head_text(alloc, name, v.len(), v.paths())?;
    write_all(out, head.as_slice())?;
    write_places(alloc, v.columns(), v.len(), out)
}

/// The rows above the places: the vector's name and length, then `slot` and the paths.
fn head_text(alloc: Global, name: &Name, len: u32, paths: &[Path]) -> Result<Vec<u8>, NoMemory>
    ensures { IfOk result (λ text. text.items ≡ rows_text (head_rows name.now len paths.now)) }
{
    let text = RowText::new(alloc);
    let mut row = ByteRecord::new(alloc);
    row.push_field(name.text().as_bytes())?;
    row.push_field(Buffer::new().format(len).as_bytes())?;
    let text = text.push(&row)?;
    row.clear();
    row.push_field(b"slot")?;
    push_paths(paths, &mut row)?;
    text.push(&row)?.into_text()
}

/// A field for each path.
fn push_paths(paths: &[Path], row: &mut ByteRecord) -> Result<(), NoMemory>
    requires { partial_of row.old ≡ [] }
    ensures { OnOk result (fields_of row.new ≡ fields_of row.old ++ paths.now) }
{
    for p in paths {
        row.push_field(p.text().as_bytes())?;
    }
    Ok(())
}

/// Prints the rows of all places, some at a time.
fn write_places<O: Sink>(
    alloc: Global,
    columns: &[Column],
    len: u32,
    out: &mut O,
) -> Result<(), PrintRefusal>
    requires few { len ≤ 2 ^ 22 }
    requires lengths { All (λ c. length c.slots ≡ len) columns.now }
    ensures whole { OnOk result (Appends (O.written out.old) (O.written out.new) (rows_text (place_rows (slots_in columns.now) 0 len))) }
    ensures prefix { OnErr result (AppendsPrefix (O.written out.old) (O.written out.new) (rows_text (place_rows (slots_in columns.now) 0 len))) }
    ensures later { O.faults out.old ≤ O.faults out.new }
    ensures cause { result ≡ Err PrintRefusal.WriteFault → Rose (O.faults out.old) (O.faults out.new) }
{
    let step = rows_a_piece(columns);
    let mut from = 0;
    'pieces: while from < len {
        let count = step.min(len - from);
        let piece = piece_text(alloc, columns, from, count)?;
        write_all(out, piece.as_slice())?;
        from += count;
    }
    Ok(())
}

/// How many rows are put together before they are written: fewer where a row has more fields.
fn rows_a_piece(columns: &[Column]) -> u32
    ensures some { 1 ≤ result }
    ensures bound { result ≤ 8192 }
{
    let fields = columns.len().min(8191) as u32 + 1;
    FIELDS_A_PIECE / fields
}

/// The rows of so many places from one on.
fn piece_text(alloc: Global, columns: &[Column], from: u32, count: u32) -> Result<Vec<u8>, NoMemory>
    requires few { from + count ≤ 2 ^ 22 }
    requires within { All (λ c. from + count ≤ length c.slots) columns.now }
    ensures { IfOk result (λ text. text.items ≡ rows_text (place_rows (slots_in columns.now) from count)) }
{
    let mut text = RowText::new(alloc);
    let mut row = ByteRecord::new(alloc);
    for i in from..from + count {
        fill_row(columns, i, &mut row)?;
        text.add(&row)?;
    }
    text.into_text()
}

/// Puts the fields of a place into a row.
fn fill_row(columns: &[Column], i: u32, row: &mut ByteRecord) -> Result<(), NoMemory>
    requires within { All (λ c. i < length c.slots) columns.now }
    ensures fields { OnOk result (fields_of row.new ≡ place_row (slots_in columns.now) i) }
    ensures partial { OnOk result (partial_of row.new ≡ []) }
{
    row.clear();
    row.push_field(Buffer::new().format(i).as_bytes())?;
    for c in columns {
        push_slot(c.get(i), row)?;
    }
    Ok(())
}

/// A field more, of a slot.
fn push_slot(slot: Slot, row: &mut ByteRecord) -> Result<(), NoMemory>
    requires { partial_of row.old ≡ [] }
    ensures fields { OnOk result (fields_of row.new ≡ fields_of row.old ++ slot_field slot ∷ []) }
    ensures partial { OnOk result (partial_of row.new ≡ []) }
{
    match slot {
        None => row.push_field(b""),
        Some(x) => row.push_field(Buffer::new().format(x).as_bytes()),
    }
}
