//! A whole table.

ghost use Rattle.std.specs.Prelude.{◌≡◌, ◌≤◌, ◌^◌, [], length, IfOk, IfErr, Ok};
ghost use Rattle.table_load.specs.Tables.{as_table, rows_after, table_of, RefusedBy};

use crate::columns::{empty_columns, push_row, text_columns};
use crate::header::read_header;
use crate::keys::{key_place, note_key};
use crate::reading::read_record;
use crate::records::Records;
use crate::texts::Texts;
use crate::{DataRefusal, RawTable};
use csv::ByteRecord;
use sql_read::TableDef;
use std::alloc::Global;
use std::collections::HashMap;

/// The table of a definition and a file's bytes, or its first refusal by record, then by column. The definition has at most
/// 64 columns. Records are those of `csv` at its defaults, the first of which is the header.
///
/// A field is converted where it lies: memory is taken for the columns, for a key's values, and once for each distinct text.
pub fn load(alloc: Global, def: &TableDef, bytes: &[u8]) -> Result<RawTable, DataRefusal>
    requires few { length def.now.columns ≤ 64 }
    ensures table { IfOk result (λ t. table_of def.now bytes.now ≡ Ok t) }
    ensures refused { IfErr result (RefusedBy (table_of def.now bytes.now)) }
    ensures degree { IfOk result (λ t. t.degree ≡ length def.now.columns) }
    ensures few_rows { IfOk result (λ t. length t.rows ≤ 2 ^ 20) }
{
    let mut records = Records::new(alloc, bytes);
    let mut row = ByteRecord::new(alloc);
    match read_header(def, &mut records, &mut row) {
        Ok(()) => load_rows(alloc, def, records, row),
        Err(refusal) => Err(refusal),
    }
}

/// The table of the records behind the header.
fn load_rows(
    alloc: Global,
    def: &TableDef,
    records: Records<'_>,
    row: ByteRecord,
) -> Result<RawTable, DataRefusal>
    requires few { length def.now.columns ≤ 64 }
    ensures table { IfOk result (λ t. as_table def.now (rows_after def.now [] records.entry) ≡ Ok t) }
    ensures refused { IfErr result (RefusedBy (as_table def.now (rows_after def.now [] records.entry))) }
    ensures degree { IfOk result (λ t. t.degree ≡ length def.now.columns) }
    ensures few_rows { IfOk result (λ t. length t.rows ≤ 2 ^ 20) }
{
    let key = key_place(def);
    let are_texts = text_columns(alloc, def.columns.as_slice())?;
    let mut columns = empty_columns(alloc, def.columns.len())?;
    let mut records = records;
    let mut row = row;
    let mut texts = Texts::new(alloc);
    let mut places = HashMap::new(alloc);
    let mut cells = Vec::new(alloc);
    let mut count = 0;
    'rows: while records.next(&mut row)? {
        match read_record(
            alloc, def, key, count, &row, &places, &mut texts, &mut cells,
        ) {
            Ok(()) => {}
            Err(refusal) => return Err(refusal),
        }
        push_row(&mut columns, cells.as_slice())?;
        count += 1;
        note_key(&mut places, key, cells.as_slice(), count)?;
    }
    let texts = texts.into_names(alloc)?;
    Ok(RawTable {
        columns,
        are_texts,
        texts,
        count,
    })
}
