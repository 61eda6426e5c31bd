//! The fields of a record, as cells.

ghost use Rattle.std.specs.Prelude.{true, ◌≡◌, ◌≤◌, [], ◌∷◌, length, IfOk, IfErr, OnOk, OnErr};
ghost use Rattle.std.specs.Str.{is_utf8};
ghost use Rattle.civil_days.specs.Dates.{day_number};
ghost use Rattle.csv.specs.Records.{fields_of};
ghost use Rattle.number_fields.specs.Decimals.{decimal_value};
ghost use Rattle.number_fields.specs.Integers.{integer_value};
ghost use Rattle.table_load.specs.Databases.{row_texts};
ghost use Rattle.table_load.specs.HeldColumns.{AreCells, is_text_column, noted, text_columns, value_of, values_of};
ghost use Rattle.table_load.specs.Reading.{ReadsField, ReadsFields, ReadsNumber};
ghost use Rattle.table_load.specs.Values.{date_field, decimal_field, field_value, field_values, integer_field, text_field, typed_field};

use crate::DataKind;
use crate::texts::Texts;
use civil_days::day_of;
use csv::ByteRecord;
use io_edge::NoMemory;
use number_fields::{NumberFault, decimal_of, integer_of};
use sql_read::{ColumnDef, ColumnKind, TableDef};
use sql_types::may_be_null;
use std::alloc::{AllocError, Global};

/// Why a field is not read.
#[derive(Clone, Copy)]
pub enum FieldRefusal {
    NoMemory,
    Bad(DataKind),
}

/// The cell of a field, which is empty where the field is null.
fn read_field(
    alloc: Global,
    def: &TableDef,
    column: &ColumnDef,
    field: &[u8],
    texts: &mut Texts,
) -> Result<Option<i64>, FieldRefusal>
    ensures value { ReadsField texts.new (is_text_column column.now) result (field_value def.now column.now field.now) }
    ensures noted { IfOk result (λ cell. texts.new ≡ noted texts.old (row_texts (value_of texts.new (is_text_column column.now) cell ∷ []))) }
    ensures kept { OnErr result (texts.new ≡ texts.old) }
{
    if field.is_empty() && may_be_null(def, column) {
        return Ok(None);
    }
    read_typed(alloc, column, field, texts)
}

/// The cell of a field that is not null: its number, its units, its day, or the place of its text.
fn read_typed(
    alloc: Global,
    column: &ColumnDef,
    field: &[u8],
    texts: &mut Texts,
) -> Result<Option<i64>, FieldRefusal>
    ensures value { ReadsField texts.new (is_text_column column.now) result (typed_field column.now.kind column.now.width column.now.scale field.now) }
    ensures noted { IfOk result (λ cell. texts.new ≡ noted texts.old (row_texts (value_of texts.new (is_text_column column.now) cell ∷ []))) }
    ensures kept { OnErr result (texts.new ≡ texts.old) }
{
    match column.kind {
        ColumnKind::Integer => read_integer(field),
        ColumnKind::Date => read_date(field),
        ColumnKind::Text => read_text(alloc, column.width, field, texts),
        ColumnKind::Decimal => read_decimal(column.width, column.scale, field),
    }
}

/// A field that is a whole number.
fn read_integer(field: &[u8]) -> Result<Option<i64>, FieldRefusal>
    ensures { ReadsNumber result (integer_field (integer_value field.now)) }
{
    match integer_of(field) {
        Ok(n) => Ok(Some(n)),
        Err(NumberFault::NoNumber) => Err(FieldRefusal::Bad(DataKind::NotInteger)),
        Err(NumberFault::OutOfRange) => Err(FieldRefusal::Bad(DataKind::IntegerRange)),
    }
}

/// A field that is a decimal.
fn read_decimal(precision: u32, scale: u32, field: &[u8]) -> Result<Option<i64>, FieldRefusal>
    ensures { ReadsNumber result (decimal_field (decimal_value precision scale field.now)) }
{
    match decimal_of(precision, scale, field) {
        Ok(n) => Ok(Some(n)),
        Err(NumberFault::NoNumber) => Err(FieldRefusal::Bad(DataKind::NotDecimal)),
        Err(NumberFault::OutOfRange) => Err(FieldRefusal::Bad(DataKind::DecimalRange)),
    }
}

/// A field that is a date.
fn read_date(field: &[u8]) -> Result<Option<i64>, FieldRefusal>
    ensures { ReadsNumber result (date_field (day_number field.now)) }
{
    match day_of(field) {
        Some(day) => Ok(Some(i64::from(day))),
        None => Err(FieldRefusal::Bad(DataKind::NotDate)),
    }
}

/// The place of a field that is text.
fn read_text(
    alloc: Global,
    width: u32,
    field: &[u8],
    texts: &mut Texts,
) -> Result<Option<i64>, FieldRefusal>
    ensures value { ReadsField texts.new true result (text_field width field.now) }
    ensures noted { IfOk result (λ cell. texts.new ≡ noted texts.old (row_texts (value_of texts.new true cell ∷ []))) }
    ensures kept { OnErr result (texts.new ≡ texts.old) }
{
    match std::str::from_utf8(field) {
        Ok(text) => {
            if text.len() > width as usize {
                return Err(FieldRefusal::Bad(DataKind::TextTooLong));
            }
            match texts.note(alloc, text) {
                Ok(place) => Ok(Some(place)),
                Err(AllocError) => Err(FieldRefusal::NoMemory),
            }
        }
        Err(_) => Err(FieldRefusal::Bad(DataKind::NotText)),
    }
}

/// The cells of a record's fields, up to the first field that is refused: its column, counted from 1, and why.
pub fn read_fields(
    alloc: Global,
    def: &TableDef,
    row: &ByteRecord,
    texts: &mut Texts,
    cells: &mut Vec<Option<i64>>,
) -> Result<Option<(u32, DataKind)>, NoMemory>
    requires few { length def.now.columns ≤ 64 }
    requires lengths { length (fields_of row.now) ≡ length def.now.columns }
    ensures reads { IfOk result (λ stop. ReadsFields texts.new (text_columns def.now.columns) cells.new.items stop (field_values def.now def.now.columns (fields_of row.now))) }
    ensures cells { OnOk result (AreCells (length texts.new) (text_columns def.now.columns) cells.new.items) }
    ensures noted { OnOk result (texts.new ≡ noted texts.old (row_texts (values_of texts.new (text_columns def.now.columns) cells.new.items))) }
    ensures short { OnOk result (length cells.new.items ≤ length def.now.columns) }
{
    let columns = def.columns.as_slice();
    cells.clear();
    'columns: for i in 0..columns.len() {
        let Some(field) = row.get(i) else {
            unreachable!()
        };
        match read_field(alloc, def, &columns[i], field, texts) {
            Ok(cell) => cells.push(cell)?,
            Err(FieldRefusal::NoMemory) => return Err(AllocError),
            Err(FieldRefusal::Bad(kind)) => return Ok(Some((i as u32 + 1, kind))),
        }
    }
    Ok(None)
}
