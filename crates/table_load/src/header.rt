//! The header of a table's file.

ghost use Rattle.std.specs.Prelude.{[], ◌≡◌, ◌≤◌, ◌+◌, length, drop, map, OnOk, IfErr};
ghost use Rattle.std.specs.Char.{to_ascii_lowercase};
ghost use Rattle.csv.specs.Records.{fields_of};
ghost use Rattle.table_load.specs.Tables.{as_table, first_other, header_refusal, is_same_name, rows_after, table_of_records, RefusedBy};

use crate::records::Records;
use crate::{DataKind, DataRefusal};
use csv::ByteRecord;
use sql_read::{ColumnDef, TableDef};

/// Reads the first record, which names the columns.
pub fn read_header(
    def: &TableDef,
    records: &mut Records<'_>,
    row: &mut ByteRecord,
) -> Result<(), DataRefusal>
    requires few { length def.now.columns ≤ 64 }
    ensures names { OnOk result (table_of_records def.now records.old ≡ as_table def.now (rows_after def.now [] records.new)) }
    ensures refused { IfErr result (RefusedBy (table_of_records def.now records.old)) }
{
    if !records.next(row)? {
        return Err(refused_at(0));
    }
    match other_column(def.columns.as_slice(), row) {
        None => Ok(()),
        Some(column) => Err(refused_at(column)),
    }
}

/// The refusal of a header.
fn refused_at(column: u32) -> DataRefusal
    ensures { result ≡ DataRefusal.Bad 0 column DataKind.Header }
{
    DataRefusal::Bad {
        at_record: 0,
        at_column: column,
        kind: DataKind::Header,
    }
}

/// The first column, counted from 1, whose field is not its name; 0 where there is another number of fields.
fn other_column(columns: &[ColumnDef], row: &ByteRecord) -> Option<u32>
    requires few { length columns.now ≤ 64 }
    ensures { result ≡ header_refusal columns.now (fields_of row.now) }
{
    if row.len() != columns.len() {
        return Some(0);
    }
    'columns: for i in 0..columns.len() {
        if let Some(field) = row.get(i) {
            if !is_name(&columns[i], field) {
                return Some(i as u32 + 1);
            }
        }
    }
    None
}

/// Whether a field is a column's name, without regard to ASCII case.
fn is_name(column: &ColumnDef, field: &[u8]) -> bool
    ensures { result ≡ is_same_name column.now.name field.now }
{
    column.name.text().as_bytes().eq_ignore_ascii_case(field)
}
