//! The line that standard error gets at the end of a run, written without taking memory.

ghost use Rattle.std.specs.Prelude.{◌≡◌, ◌++◌, OnOk, OnErr};
ghost use Rattle.std.specs.Io.KnownBytes.{Appends};
ghost use Rattle.io_edge.specs.Faults.{HasCause};
ghost use Rattle.io_edge.specs.Sinks.{AppendsPrefix};
ghost use Rattle.run_steps.specs.declared.status.LimitWhat.{LimitWhat};
ghost use Rattle.run_steps.specs.Statuses.{status_line, role_name, place_line, data_line, limit_line, line_end, schema_cause_name, query_cause_name, algebra_cause_name, schema_kind_name, sql_kind_name, type_kind_name, text_kind_name, program_kind_name, data_kind_name, data_kind_number};

use crate::status::{
    AlgebraCause, FileRole, LimitWhat, QueryCause, SchemaCause, Status, UsageKind,
};
use io_edge::{Failed, Sink, write_all, write_pieces};
use itoa::Buffer;
use programs::ProgramKind;
use query_types::TypeKind;
use sql_read::SqlKind;
use sql_types::SchemaKind;
use table_load::DataKind;
use voodoo_text::TextKind;

/// Writes the line of a status, and nothing for `Done`. Where it fails, a prefix of the line was
/// written.
pub fn write_line<E: Sink>(err: &mut E, status: &Status) -> Result<(), Failed>
    ensures whole { OnOk result (Appends (E.written err.old) (E.written err.new) (status_line status.now)) }
    ensures prefix { OnErr result (AppendsPrefix (E.written err.old) (E.written err.new) (status_line status.now)) }
    ensures cause { HasCause (E.faults err.old) (E.faults err.new) result }
{
    match status {
        Status::Done => write_all(err, b""),
        Status::Usage(UsageKind::Words) => write_all(err, b"voodoo: usage: Words\n"),
        Status::ReadFault(role) => write_role_line(err, b"voodoo: cannot read ", role),
        Status::WriteFault => write_all(err, b"voodoo: cannot write\n"),
        Status::SchemaRefused { at, kind } => write_place_line(
            err,
            b"voodoo: schema: byte ",
            *at,
            schema_cause_name(kind),
        ),
        Status::DataRefused {
            table,
            at_record,
            at_column,
            kind,
        } => write_data_line(err, *table, *at_record, *at_column, kind),
        Status::QueryRefused { at, kind } => {
            write_place_line(err, b"voodoo: query: byte ", *at, query_cause_name(kind))
        }
        Status::AlgebraRefused { line, kind } => write_place_line(
            err,
            b"voodoo: algebra: line ",
            *line,
            algebra_cause_name(kind),
        ),
        Status::LimitReached { what, number } => write_limit_line(err, what, *number),
        Status::Overflow => write_all(err, b"voodoo: overflow\n"),
        Status::NotYet(role) => write_role_line(err, b"voodoo: not yet: ", role),
        Status::NoMemory => write_all(err, b"voodoo: out of memory\n"),
    }
}

/// Writes a line that ends with the name of a file's role.
fn write_role_line<E: Sink>(err: &mut E, start: &[u8], role: &FileRole) -> Result<(), Failed>
    ensures whole { OnOk result (Appends (E.written err.old) (E.written err.new) (start.now ++ role_name role.now ++ line_end)) }
    ensures prefix { OnErr result (AppendsPrefix (E.written err.old) (E.written err.new) (start.now ++ role_name role.now ++ line_end)) }
    ensures cause { HasCause (E.faults err.old) (E.faults err.new) result }
{
    match role {
        FileRole::Schema => write_pieces(err, &[start, b"schema", b"\n"]),
        FileRole::Table(k) => {
            let mut digits = Buffer::new();
            let number = digits.format(*k).as_bytes();
            write_pieces(err, &[start, b"table ", number, b"\n"])
        }
        FileRole::Text => write_pieces(err, &[start, b"text", b"\n"]),
    }
}

/// Writes the line of a text that is refused at a byte or at a line.
fn write_place_line<E: Sink>(err: &mut E, start: &[u8], at: u32, name: &str) -> Result<(), Failed>
    ensures whole { OnOk result (Appends (E.written err.old) (E.written err.new) (place_line start.now at name.now)) }
    ensures prefix { OnErr result (AppendsPrefix (E.written err.old) (E.written err.new) (place_line start.now at name.now)) }
    ensures cause { HasCause (E.faults err.old) (E.faults err.new) result }
{
    let mut digits = Buffer::new();
    let place = digits.format(at).as_bytes();
    write_pieces(err, &[start, place, b": ", name.as_bytes(), b"\n"])
}

/// Writes the line of a table that is refused at a record and a column.
fn write_data_line<E: Sink>(
    err: &mut E,
    table: u32,
    at_record: u32,
    at_column: u32,
    kind: &DataKind,
) -> Result<(), Failed>
    ensures whole { OnOk result (Appends (E.written err.old) (E.written err.new) (data_line table at_record at_column kind.now)) }
    ensures prefix { OnErr result (AppendsPrefix (E.written err.old) (E.written err.new) (data_line table at_record at_column kind.now)) }
    ensures cause { HasCause (E.faults err.old) (E.faults err.new) result }
{
    let mut table_digits = Buffer::new();
    let mut record_digits = Buffer::new();
    let mut column_digits = Buffer::new();
    let mut earlier_digits = Buffer::new();
    let table = table_digits.format(table).as_bytes();
    let row = record_digits.format(at_record).as_bytes();
    let column = column_digits.format(at_column).as_bytes();
    let name = data_kind_name(*kind).as_bytes();
    let number = data_kind_number(*kind, &mut earlier_digits).as_bytes();
    write_pieces(
        err,
        &[
            b"voodoo: table ",
            table,
            b": record ",
            row,
            b": column ",
            column,
            b": ",
            name,
            number,
            b"\n",
        ],
    )
}

/// Writes the line of a limit that is passed.
fn write_limit_line<E: Sink>(err: &mut E, what: &LimitWhat, number: u64) -> Result<(), Failed>
    ensures whole { OnOk result (Appends (E.written err.old) (E.written err.new) (limit_line what.now number)) }
    ensures prefix { OnErr result (AppendsPrefix (E.written err.old) (E.written err.new) (limit_line what.now number)) }
    ensures cause { HasCause (E.faults err.old) (E.faults err.new) result }
{
    match what {
        LimitWhat::Slots => write_slots_line(err, number),
        LimitWhat::File(role) => write_file_line(err, role, number),
    }
}

/// Writes the line of a vector that is longer than its limit.
fn write_slots_line<E: Sink>(err: &mut E, number: u64) -> Result<(), Failed>
    ensures whole { OnOk result (Appends (E.written err.old) (E.written err.new) (limit_line LimitWhat.Slots number)) }
    ensures prefix { OnErr result (AppendsPrefix (E.written err.old) (E.written err.new) (limit_line LimitWhat.Slots number)) }
    ensures cause { HasCause (E.faults err.old) (E.faults err.new) result }
{
    let mut digits = Buffer::new();
    let count = digits.format(number).as_bytes();
    write_pieces(err, &[b"voodoo: limit: ", b"slots", b": ", count, b"\n"])
}

/// Writes the line of a file that is longer than its limit.
fn write_file_line<E: Sink>(err: &mut E, role: &FileRole, number: u64) -> Result<(), Failed>
    ensures whole { OnOk result (Appends (E.written err.old) (E.written err.new) (limit_line (LimitWhat.File role.now) number)) }
    ensures prefix { OnErr result (AppendsPrefix (E.written err.old) (E.written err.new) (limit_line (LimitWhat.File role.now) number)) }
    ensures cause { HasCause (E.faults err.old) (E.faults err.new) result }
{
    let mut digits = Buffer::new();
    let count = digits.format(number).as_bytes();
    match role {
        FileRole::Schema => {
            write_pieces(err, &[b"voodoo: limit: ", b"schema", b": ", count, b"\n"])
        }
        FileRole::Table(k) => {
            let mut table_digits = Buffer::new();
            let table = table_digits.format(*k).as_bytes();
            write_pieces(
                err,
                &[b"voodoo: limit: ", b"table ", table, b": ", count, b"\n"],
            )
        }
        FileRole::Text => write_pieces(err, &[b"voodoo: limit: ", b"text", b": ", count, b"\n"]),
    }
}

fn data_kind_name(kind: DataKind) -> &'static str
    ensures { result.now ≡ data_kind_name kind }
{
    match kind {
        DataKind::Header => "Header",
        DataKind::TooManyRows => "TooManyRows",
        DataKind::FieldCount => "FieldCount",
        DataKind::NotInteger => "NotInteger",
        DataKind::IntegerRange => "IntegerRange",
        DataKind::NotDate => "NotDate",
        DataKind::NotText => "NotText",
        DataKind::TextTooLong => "TextTooLong",
        DataKind::NotDecimal => "NotDecimal",
        DataKind::DecimalRange => "DecimalRange",
        DataKind::KeyTwice(_) => "KeyTwice ",
    }
}

/// The number of the earlier record, where a key stands twice.
fn data_kind_number(kind: DataKind, digits: &mut Buffer) -> &str
    ensures { result.now ≡ data_kind_number kind }
{
    match kind {
        DataKind::KeyTwice(earlier) => digits.format(earlier),
        _ => "",
    }
}

/// The name of a cause, as it is printed.
fn schema_cause_name(cause: &SchemaCause) -> &'static str
    ensures { result.now ≡ schema_cause_name cause.now }
{
    match cause {
        SchemaCause::Text(kind) => sql_kind_name(*kind),
        SchemaCause::Catalog(kind) => schema_kind_name(*kind),
    }
}

/// The name of a query's cause, as it is printed.
fn query_cause_name(cause: &QueryCause) -> &'static str
    ensures { result.now ≡ query_cause_name cause.now }
{
    match cause {
        QueryCause::Text(kind) => sql_kind_name(*kind),
        QueryCause::Typing(kind) => type_kind_name(*kind),
    }
}

/// The name of a program's cause, as it is printed.
fn algebra_cause_name(cause: &AlgebraCause) -> &'static str
    ensures { result.now ≡ algebra_cause_name cause.now }
{
    match cause {
        AlgebraCause::Text(kind) => text_kind_name(*kind),
        AlgebraCause::Program(kind) => program_kind_name(*kind),
    }
}

fn type_kind_name(kind: TypeKind) -> &'static str
    ensures { result.now ≡ type_kind_name kind }
{
    match kind {
        TypeKind::UnknownTable => "UnknownTable",
        TypeKind::UnknownColumn => "UnknownColumn",
        TypeKind::Ambiguous => "Ambiguous",
        TypeKind::NameTwice => "NameTwice",
        TypeKind::TypesDiffer => "TypesDiffer",
        TypeKind::NotGrouped => "NotGrouped",
        TypeKind::NestedAggregate => "NestedAggregate",
        TypeKind::NotAKey => "NotAKey",
        TypeKind::ZeroDivisor => "ZeroDivisor",
        TypeKind::NotColumns => "NotColumns",
        TypeKind::TooManyTables => "TooManyTables",
        TypeKind::TooManyItems => "TooManyItems",
        TypeKind::TooManyKeys => "TooManyKeys",
        TypeKind::ScaleTooLarge => "ScaleTooLarge",
    }
}

fn text_kind_name(kind: TextKind) -> &'static str
    ensures { result.now ≡ text_kind_name kind }
{
    match kind {
        TextKind::NotText => "NotText",
        TextKind::BadToken => "BadToken",
        TextKind::Unexpected => "Unexpected",
        TextKind::BadNumber => "BadNumber",
        TextKind::NotAdmissible => "NotAdmissible",
    }
}

fn program_kind_name(kind: ProgramKind) -> &'static str
    ensures { result.now ≡ program_kind_name kind }
{
    match kind {
        ProgramKind::TooManyStatements => "TooManyStatements",
        ProgramKind::UnknownName => "UnknownName",
        ProgramKind::NoSuchPath => "NoSuchPath",
        ProgramKind::NoLength => "NoLength",
        ProgramKind::PathClash => "PathClash",
        ProgramKind::TooDeep => "TooDeep",
        ProgramKind::TooManyKeys => "TooManyKeys",
        ProgramKind::NameTwice => "NameTwice",
        ProgramKind::NoPersist => "NoPersist",
    }
}

fn sql_kind_name(kind: SqlKind) -> &'static str
    ensures { result.now ≡ sql_kind_name kind }
{
    match kind {
        SqlKind::NotText => "NotText",
        SqlKind::BadToken => "BadToken",
        SqlKind::NumberTooWide => "NumberTooWide",
        SqlKind::TooLong => "TooLong",
        SqlKind::Unexpected => "Unexpected",
        SqlKind::TooDeep => "TooDeep",
        SqlKind::DateRange => "DateRange",
    }
}

fn schema_kind_name(kind: SchemaKind) -> &'static str
    ensures { result.now ≡ schema_kind_name kind }
{
    match kind {
        SchemaKind::TableTwice => "TableTwice",
        SchemaKind::ColumnTwice => "ColumnTwice",
        SchemaKind::TwoKeys => "TwoKeys",
        SchemaKind::KeyUnknown => "KeyUnknown",
        SchemaKind::BadWidth => "BadWidth",
        SchemaKind::TooManyTables => "TooManyTables",
        SchemaKind::TooManyColumns => "TooManyColumns",
    }
}
