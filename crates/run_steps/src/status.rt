//! How a run ended.

ghost use Rattle.std.specs.Prelude.{◌≡◌};
ghost use Rattle.run_steps.specs.Statuses.{status_code};

use programs::ProgramKind;
use query_types::TypeKind;
use sql_read::SqlKind;
use sql_types::SchemaKind;
use std::alloc::AllocError;
use table_load::DataKind;
use voodoo_text::TextKind;

/// What is wrong with the words of the command line.
#[derive(Clone, Copy)]
pub enum UsageKind {
    /// They are not the words of a command.
    Words,
}

/// A file by what it is to the run.
#[derive(Clone, Copy)]
pub enum FileRole {
    Schema,
    /// The file of a table. Tables count from 1, in the schema's order.
    Table(u32),
    /// The query, or the program.
    Text,
}

/// Why a schema is refused: by its text, or by its catalog.
#[derive(Clone, Copy)]
pub enum SchemaCause {
    Text(SqlKind),
    Catalog(SchemaKind),
}

/// Why a query is refused: by its text, or by what its names mean.
#[derive(Clone, Copy)]
pub enum QueryCause {
    Text(SqlKind),
    Typing(TypeKind),
}

/// Why a program of the algebra is refused: by its text, or by its check.
#[derive(Clone, Copy)]
pub enum AlgebraCause {
    Text(TextKind),
    Program(ProgramKind),
}

/// What a limit is on.
#[derive(Clone, Copy)]
pub enum LimitWhat {
    /// The slots of a vector.
    Slots,
    /// A file's bytes.
    File(FileRole),
}

/// How a run ended. Each status has an exit status and, but for `Done`, one line on standard error.
#[derive(Clone, Copy)]
pub enum Status {
    /// The whole answer was written.
    Done,
    /// The words of the command line are refused.
    Usage(UsageKind),
    /// That file is missing, or reading it failed.
    ReadFault(FileRole),
    /// Writing failed. What was written is a prefix of the answer.
    WriteFault,
    /// The schema is refused at a byte of its text, counted from 0.
    SchemaRefused {
        at: u32,
        kind: SchemaCause,
    },
    /// A table is refused at a record and a column. Tables count from 1, in the schema's order; data
    /// records and columns from 1, where record 0 is the header and column 0 the record as a whole.
    DataRefused {
        table: u32,
        at_record: u32,
        at_column: u32,
        kind: DataKind,
    },
    /// The query is refused at a byte of its text, counted from 0.
    QueryRefused {
        at: u32,
        kind: QueryCause,
    },
    /// The program is refused at a line of its text, counted from 1; at line 0 where it names no
    /// result.
    AlgebraRefused {
        line: u32,
        kind: AlgebraCause,
    },
    /// A limit is passed: by a vector of so many slots, or by a file, where the number is the limit
    /// plus one.
    LimitReached {
        what: LimitWhat,
        number: u64,
    },
    /// A number of the answer leaves 128 bits.
    Overflow,
    /// That file asks for more than is answered today.
    NotYet(FileRole),
    /// Memory was refused.
    NoMemory,
}

impl Status {
    /// The exit status: 0 where the run is done, else from 2 on.
    pub fn code(&self) -> u8
        ensures { result ≡ status_code self.now }
    {
        match self {
            Status::Done => 0,
            Status::Usage(_) => 2,
            Status::ReadFault(_) => 3,
            Status::WriteFault => 4,
            Status::SchemaRefused { .. } => 5,
            Status::DataRefused { .. } => 6,
            Status::QueryRefused { .. } => 7,
            Status::AlgebraRefused { .. } => 9,
            Status::LimitReached { .. } => 10,
            Status::Overflow => 11,
            Status::NoMemory => 12,
            Status::NotYet(_) => 13,
        }
    }
}

impl From<AllocError> for Status {
    ghost use Rattle.std.specs.Prelude.{◌≡◌};
    ghost use Rattle.run_steps.specs.declared.status.Status.TheVariants.{NoMemory};

    ghost from_gives = { λ _ e. e ≡ NoMemory };

    fn from(_error: AllocError) -> Status {
        Status::NoMemory
    }
}
