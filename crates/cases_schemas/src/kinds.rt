//! The kinds of refusals by name.

use case_names::sql_kind_name;
use case_text::show_count;
use sql_read::SqlRefusal;
use sql_types::{SchemaKind, SchemaRefusal};
use std::alloc::AllocError;

fn schema_kind_name(kind: SchemaKind) -> &'static str {
    match kind {
        SchemaKind::TableTwice => "TableTwice",
        SchemaKind::ColumnTwice => "ColumnTwice",
        SchemaKind::TwoKeys => "TwoKeys",
        SchemaKind::KeyUnknown => "KeyUnknown",
        SchemaKind::BadWidth => "BadWidth",
        SchemaKind::TooManyTables => "TooManyTables",
        SchemaKind::TooManyColumns => "TooManyColumns",
    }
}

fn show_kind_at(out: &mut String, at: u32, kind: &str) -> Result<(), AllocError> {
    show_count(out, at as u128)?;
    out.push(' ')?;
    out.push_str(kind)
}

/// The byte and the kind.
pub fn show_sql_refusal(out: &mut String, refusal: SqlRefusal) -> Result<(), AllocError> {
    match refusal {
        SqlRefusal::NoMemory => out.push_str("no memory"),
        SqlRefusal::Bad { at, kind } => show_kind_at(out, at, sql_kind_name(kind)),
    }
}

/// The byte and the kind.
pub fn show_schema_refusal(out: &mut String, refusal: SchemaRefusal) -> Result<(), AllocError> {
    match refusal {
        SchemaRefusal::NoMemory => out.push_str("no memory"),
        SchemaRefusal::Bad { at, kind } => show_kind_at(out, at, schema_kind_name(kind)),
    }
}
