//! Records, as rows of cells.

ghost use Rattle.std.specs.Prelude.{◌≡◌, ◌+◌, ◌≤◌, ◌<◌, ◌^◌, List, length, None, OnOk};
ghost use Rattle.std.specs.HashMap.{get};
ghost use Rattle.std.specs.Ordering.{int_eq};
ghost use Rattle.csv.specs.Records.{fields_of};
ghost use Rattle.sql_values.specs.Values.{Value};
ghost use Rattle.table_load.specs.Databases.{row_texts};
ghost use Rattle.table_load.specs.HeldColumns.{noted, text_columns, values_of};
ghost use Rattle.table_load.specs.Reading.{Agrees, HasNoted, key_twice, ReadsRecord};
ghost use Rattle.table_load.specs.Tables.{key_place, record_row};

use crate::fields::read_fields;
use crate::keys::key_twice;
use crate::texts::Texts;
use crate::{DataKind, DataRefusal};
use csv::ByteRecord;
use sql_read::TableDef;
use std::alloc::Global;
use std::collections::HashMap;

/// The greatest number of rows.
pub const MOST_ROWS: u32 = 1_048_576;

/// Reads a record that comes after `count` rows into a row's cells.
pub fn read_record(
    alloc: Global,
    def: &TableDef,
    key: Option<usize>,
    count: u32,
    row: &ByteRecord,
    places: &HashMap<i64, u32>,
    texts: &mut Texts,
    cells: &mut Vec<Option<i64>>,
) -> Result<(), DataRefusal>
    requires few { length def.now.columns ≤ 64 }
    requires key { key ≡ key_place def.now }
    requires rows { count ≤ 2 ^ 20 }
    ensures reads { (seen : List (List Value)) → length seen ≡ count → Agrees key texts.new (text_columns def.now.columns) seen (λ q. get int_eq places.now q) → ReadsRecord texts.new (text_columns def.now.columns) cells.new.items count result (record_row def.now seen (fields_of row.now)) }
    ensures grown { HasNoted texts.old texts.new result }
    ensures noted { OnOk result (texts.new ≡ noted texts.old (row_texts (values_of texts.new (text_columns def.now.columns) cells.new.items))) }
    ensures once { OnOk result (key_twice key (λ q. get int_eq places.now q) cells.new.items ≡ None) }
    ensures below { OnOk result (count < 2 ^ 20) }
{
    if count >= MOST_ROWS {
        return Err(refused(count, 0, DataKind::TooManyRows));
    }
    if row.len() != def.columns.len() {
        return Err(refused(count, 0, DataKind::FieldCount));
    }
    let stop = read_fields(alloc, def, row, texts, cells)?;
    // The key's field stands before whatever is refused to the right of it.
    if let Some((column, earlier)) = key_twice(key, cells.as_slice(), places) {
        return Err(refused(count, column, DataKind::KeyTwice(earlier)));
    }
    match stop {
        None => Ok(()),
        Some((column, kind)) => Err(refused(count, column, kind)),
    }
}

/// The refusal of the record after so many rows.
fn refused(count: u32, column: u32, kind: DataKind) -> DataRefusal
    requires { count ≤ 2 ^ 20 }
    ensures { result ≡ DataRefusal.Bad (count + 1) column kind }
{
    DataRefusal::Bad {
        at_record: count + 1,
        at_column: column,
        kind,
    }
}
