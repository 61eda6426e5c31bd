//! The records of a text, handed out one at a time into one reused record.

ghost use Rattle.std.specs.Prelude.{◌≡◌, true, false, [], ◌∷◌, IfOk, Ok};
ghost use Rattle.csv.specs.Records.{fields_of};
ghost use Rattle.table_load.specs.Records.{records_of};

use csv::{ByteRecord, Reader, ReaderBuilder};
use io_edge::NoMemory;
use std::alloc::{AllocError, Global};
use std::marker::Model;

/// The records of a text that are yet to be handed out: `csv`'s at its defaults, but from the first one on and of any length.
#[derive(Drop)]
pub struct Records<'a> {
    reader: Reader<&'a [u8]>,
}

impl<'a> Model for Records<'a> {
    ghost use Rattle.std.specs.Prelude.{ℕ, List};
    ghost use Rattle.table_load.specs.Records.{left_in, IsKept};

    ghost Value = { List (List (List ℕ)) };

    ghost view = { λ r. left_in r.reader };

    ghost invariant = { λ r. IsKept r.reader };
}

impl<'a> Records<'a> {
    /// All the records of a text.
    pub fn new(alloc: Global, bytes: &'a [u8]) -> Records<'a>
        ensures { result ≡ records_of bytes.now }
    {
        let reader = ReaderBuilder::new()
            .has_headers(false)
            .flexible(true)
            .from_reader(alloc, bytes);
        Records { reader }
    }

    /// The next record, if there is one.
    pub fn next(&mut self, row: &mut ByteRecord) -> Result<bool, NoMemory>
        ensures more { IfOk result (λ found. found ≡ true → self.old ≡ fields_of row.new ∷ self.new) }
        ensures end { IfOk result (λ found. found ≡ false → self.old ≡ []) }
    {
        let read = self.reader.read_byte_record(row);
        found_of(read)
    }
}

/// Whether a read found a record. Over a text in memory it fails for want of memory alone.
fn found_of(read: Result<bool, csv::Error>) -> Result<bool, NoMemory>
    ensures { IfOk result (λ found. read ≡ Ok found) }
{
    match read {
        Ok(found) => Ok(found),
        Err(_) => Err(AllocError),
    }
}
