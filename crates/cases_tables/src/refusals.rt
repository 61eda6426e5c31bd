//! Why a file is refused.

use case_text::show_count;
use std::alloc::AllocError;
use table_load::{DataKind, DataRefusal};

fn kind_name(kind: DataKind) -> &'static str {
    match kind {
        DataKind::Header => "Header",
        DataKind::TooManyRows => "TooManyRows",
        DataKind::FieldCount => "FieldCount",
        DataKind::NotInteger => "NotInteger",
        DataKind::IntegerRange => "IntegerRange",
        DataKind::NotDate => "NotDate",
        DataKind::NotText => "NotText",
        DataKind::TextTooLong => "TextTooLong",
        DataKind::NotDecimal => "NotDecimal",
        DataKind::DecimalRange => "DecimalRange",
        DataKind::KeyTwice(_) => "KeyTwice",
    }
}

fn show_kind(out: &mut String, kind: DataKind) -> Result<(), AllocError> {
    out.push_str(kind_name(kind))?;
    match kind {
        DataKind::KeyTwice(earlier) => {
            out.push(' ')?;
            show_count(out, earlier as u128)
        }
        _ => Ok(()),
    }
}

fn show_counted(out: &mut String, word: &str, number: u32) -> Result<(), AllocError> {
    out.push_str(word)?;
    show_count(out, number as u128)?;
    out.push_str(": ")
}

/// The table, the record and the column by their numbers, and the kind.
pub fn show_refusal(out: &mut String, table: u32, refusal: DataRefusal) -> Result<(), AllocError> {
    match refusal {
        DataRefusal::NoMemory => out.push_str("no memory"),
        DataRefusal::Bad {
            at_record,
            at_column,
            kind,
        } => {
            show_counted(out, "table ", table)?;
            show_counted(out, "record ", at_record)?;
            show_counted(out, "column ", at_column)?;
            show_kind(out, kind)
        }
    }
}
