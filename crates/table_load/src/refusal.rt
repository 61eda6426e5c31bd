//! Why a file's bytes are no table.

ghost use Rattle.std.specs.Prelude.{◌≡◌};

use std::alloc::AllocError;
use thiserror::Error;

/// What is wrong with a record or a field.
#[derive(Clone, Copy, Debug)]
pub enum DataKind {
    /// The header is missing, has another number of fields than the table has columns, or another name in a column.
    Header,
    /// The record is data record 2^20 + 1.
    TooManyRows,
    /// The record has another number of fields than the table has columns.
    FieldCount,
    /// The field is not an optional `-` and digits.
    NotInteger,
    /// The whole number is not within -2^63 and 2^63 - 1.
    IntegerRange,
    /// The field is not `yyyy-mm-dd`, a date from 0001-01-01 to 9999-12-31.
    NotDate,
    /// The field is not UTF-8.
    NotText,
    /// The text has more bytes than its column is wide.
    TextTooLong,
    /// The field is not an optional `-` and digits with at most one point before, among or after them.
    NotDecimal,
    /// The decimal has a digit other than 0 behind its scale, or more digits by its value than its precision.
    DecimalRange,
    /// The data record of this number, an earlier one, has the same key.
    KeyTwice(u32),
}

/// Why a file's bytes are no table.
#[derive(Clone, Copy, Debug, Drop, Error)]
pub enum DataRefusal {
    /// Memory ran out.
    #[error("out of memory")]
    NoMemory,
    /// The first refusal by record, then by column. Data records count from 1, and the header is record 0. Columns count
    /// from 1, and 0 is the record as a whole.
    #[error("record {at_record}: column {at_column}: {kind:?}")]
    Bad {
        at_record: u32,
        at_column: u32,
        kind: DataKind,
    },
}

impl From<AllocError> for DataRefusal {
    ghost use Rattle.std.specs.Prelude.{◌≡◌};
    ghost use Rattle.table_load.specs.declared.refusal.DataRefusal.TheVariants.{NoMemory};

    ghost from_gives = { λ _ e. e ≡ NoMemory };

    fn from(_error: AllocError) -> DataRefusal {
        DataRefusal::NoMemory
    }
}
