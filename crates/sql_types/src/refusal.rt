//! Why the definitions of a schema are no catalog.

ghost use Rattle.std.specs.Prelude.{◌≡◌};
ghost use Rattle.sql_types.specs.Findings.{rank};

use std::alloc::AllocError;
use thiserror::Error;

/// What is wrong with the definitions at a place, in the order that decides where two are wrong at one byte.
#[derive(Clone, Copy, Debug)]
pub enum SchemaKind {
    /// The name of a table that an earlier one has.
    TableTwice,
    /// The name of a column that an earlier one of its table has.
    ColumnTwice,
    /// The second `PRIMARY` of a table.
    TwoKeys,
    /// A key's name that is no column of its table.
    KeyUnknown,
    /// The first number of a column's type that is out of range: the width of a text that is not 1 to 255 bytes, the precision of a decimal that is not 1 to 18 digits, or its scale above that.
    BadWidth,
    /// The name of the 17th table.
    TooManyTables,
    /// The name of the 65th column of a table.
    TooManyColumns,
}

impl SchemaKind {
    /// The kind's place in the order, from 0.
    pub(crate) fn rank(self) -> u8
        ensures { result ≡ rank self }
    {
        self as u8
    }
}

/// Why there is no catalog of some definitions.
#[derive(Clone, Copy, Debug, Drop, Error)]
pub enum SchemaRefusal {
    /// Memory was refused.
    #[error("out of memory")]
    NoMemory,
    /// The definitions are refused at a byte of the schema's text, counted from 0.
    #[error("byte {at}: {kind:?}")]
    Bad { at: u32, kind: SchemaKind },
}

impl From<AllocError> for SchemaRefusal {
    ghost use Rattle.std.specs.Prelude.{◌≡◌};
    ghost use Rattle.sql_types.specs.declared.refusal.SchemaRefusal.TheVariants.{NoMemory};

    ghost from_gives = { λ _ e. e ≡ NoMemory };

    fn from(_error: AllocError) -> SchemaRefusal {
        SchemaRefusal::NoMemory
    }
}
