//! Databases.

use case_text::{show_bytes, show_count, show_number};
use dict_codes::Dictionary;
use sql_read::TableDef;
use std::alloc::AllocError;
use struct_vectors::{Column, StructVector};
use table_load::Database;

fn show_slot(out: &mut String, slot: Option<i128>) -> Result<(), AllocError> {
    out.push(' ')?;
    match slot {
        Some(number) => show_number(out, number),
        None => out.push_str("empty"),
    }
}

/// The column as `(path slot slot ..)`, and a word where it is kept in another form than 64 bits a slot without empties.
fn show_column(out: &mut String, path: &str, column: &Column) -> Result<(), AllocError> {
    out.push_str(" (")?;
    out.push_str(path)?;
    for i in 0..column.len() {
        show_slot(out, column.get(i))?;
    }
    if column.narrow_slice().is_none() {
        out.push_str(" with-empties")?;
    }
    out.push(')')?;
    Ok(())
}

fn show_vector(out: &mut String, vector: &StructVector) -> Result<(), AllocError> {
    for (path, column) in vector.paths().iter().zip(vector.columns()) {
        show_column(out, path.text(), column)?;
    }
    Ok(())
}

fn show_table(out: &mut String, data: &Database, def: &TableDef) -> Result<(), AllocError> {
    out.push_str(def.name.text())?;
    match data.store().table(&def.name) {
        Some(vector) => show_vector(out, vector)?,
        None => out.push_str(" no vector")?,
    }
    out.push_str("; ")
}

/// The texts by their codes, each in quotes.
pub fn show_dictionary(out: &mut String, texts: &Dictionary) -> Result<(), AllocError> {
    out.push_str("texts")?;
    for code in 0..texts.len() {
        out.push_str(" '")?;
        show_bytes(out, texts.text(code).unwrap_or("").as_bytes())?;
        out.push('\'')?;
    }
    Ok(())
}

/// The columns of each table, and the texts.
pub fn show_columns(out: &mut String, data: &Database) -> Result<(), AllocError> {
    for def in data.defs() {
        show_table(out, data, def)?;
    }
    show_dictionary(out, data.dictionary())
}

fn show_length(out: &mut String, vector: &StructVector) -> Result<(), AllocError> {
    out.push(' ')?;
    show_count(out, vector.len() as u128)
}

/// How many rows each table has.
pub fn show_counts(out: &mut String, data: &Database) -> Result<(), AllocError> {
    out.push_str("rows")?;
    for def in data.defs() {
        match data.store().table(&def.name) {
            Some(vector) => show_length(out, vector)?,
            None => out.push_str(" no vector")?,
        }
    }
    Ok(())
}
