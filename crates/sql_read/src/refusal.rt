//! Why a text is refused.

use std::alloc::AllocError;
use thiserror::Error;

/// What is wrong with an SQL text at a place.
#[derive(Clone, Copy, Debug)]
pub enum SqlKind {
    /// A byte that is part of no character in UTF-8.
    NotText,
    /// A character that begins no token, a word of more than 64 bytes, or a text literal that is not closed.
    BadToken,
    /// A number whose digits make more than 2^127 - 1, or with more than 18 digits after its point.
    NumberTooWide,
    /// A token too many.
    TooLong,
    /// A token that cannot stand there, or the end of the text where more must follow.
    Unexpected,
    /// A level too many.
    TooDeep,
    /// A date that is none, or that lies outside 0001-01-01 to 9999-12-31.
    DateRange,
}

/// Why reading an SQL text failed.
#[derive(Clone, Copy, Debug, Drop, Error)]
pub enum SqlRefusal {
    /// Memory was refused.
    #[error("out of memory")]
    NoMemory,
    /// The text is refused at a byte, counted from 0.
    #[error("byte {at}: {kind:?}")]
    Bad { at: u32, kind: SqlKind },
}

impl From<AllocError> for SqlRefusal {
    ghost use Rattle.std.specs.Prelude.{◌≡◌};
    ghost use Rattle.sql_read.specs.declared.refusal.SqlRefusal.TheVariants.{NoMemory};

    ghost from_gives = { λ _ e. e ≡ NoMemory };

    fn from(_error: AllocError) -> SqlRefusal {
        SqlRefusal::NoMemory
    }
}
