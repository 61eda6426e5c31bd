//! Rows in the making, as text.

ghost use Rattle.std.specs.Prelude.{◌≡◌, ◌++◌, [], IfOk, OnErr, OnOk};
ghost use Rattle.csv.specs.Records.{fields_of};
ghost use Rattle.csv.specs.Writing.{default_writer, row_text, writer_pending, writer_under};
ghost use Rattle.row_print.specs.Writers.{IsBetweenRows};

use crate::NoMemory;
use csv::{ByteRecord, Writer, WriterBuilder};
use std::alloc::{AllocError, Global};
use std::marker::Model;

/// The text of the rows so far. Rows may differ in their number of fields.
#[derive(Drop)]
pub struct RowText {
    alloc: Global,
    writer: Writer<Vec<u8>>,
}

impl Model for RowText {
    ghost use Rattle.std.specs.Prelude.{◌++◌, ℕ, List};
    ghost use Rattle.csv.specs.Writing.{writer_under, writer_pending};
    ghost use Rattle.row_print.specs.Writers.{IsBetweenRows};

    ghost Value = { List ℕ };

    ghost view = { λ r. (writer_under r.writer).items ++ writer_pending r.writer };

    ghost invariant = { λ r. IsBetweenRows r.writer };
}

impl RowText {
    /// No rows.
    pub fn new(alloc: Global) -> RowText
        ensures { result ≡ [] }
    {
        RowText {
            alloc,
            writer: no_rows(alloc),
        }
    }

    /// Adds a row in place: the writer is large, so a loop over rows lends it. Where memory runs out, no rows are left.
    pub fn add(&mut self, row: &ByteRecord) -> Result<(), NoMemory>
        ensures added { OnOk result (self.new ≡ self.old ++ row_text default_writer (fields_of row.now)) }
        ensures dropped { OnErr result (self.new ≡ []) }
    {
        // Over a vector, and with rows of any length, writing fails for want of memory alone.
        if self.writer.write_byte_record(row).is_err() {
            self.writer = no_rows(self.alloc);
            return Err(AllocError);
        }
        Ok(())
    }

    /// The text with one row more. A row that memory runs out over leaves no text.
    pub fn push(self, row: &ByteRecord) -> Result<RowText, NoMemory>
        ensures { IfOk result (λ text. text ≡ self ++ row_text default_writer (fields_of row.now)) }
    {
        let mut text = self;
        text.add(row)?;
        Ok(text)
    }

    /// The text.
    pub fn into_text(self) -> Result<Vec<u8>, NoMemory>
        ensures { IfOk result (λ text. text.items ≡ self) }
    {
        let RowText { alloc: _, writer } = self;
        match writer.into_inner() {
            Ok(text) => Ok(text),
            Err(_) => Err(AllocError),
        }
    }
}

/// A writer of rows of any length that has written none.
fn no_rows(alloc: Global) -> Writer<Vec<u8>>
    ensures between { IsBetweenRows result }
    ensures empty { (writer_under result).items ++ writer_pending result ≡ [] }
{
    WriterBuilder::new()
        .flexible(true)
        .from_writer(Vec::new(alloc))
}
