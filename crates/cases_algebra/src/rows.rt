//! Rows of text.

use case_text::{show_bytes, spelled};
use csv::ByteRecord;
use row_print::RowText;
use std::alloc::{AllocError, Global};

/// The text of rows, each behind a `/`, of the fields between bars.
pub fn rows(alloc: Global, given: &str, to: &mut String) -> Result<(), AllocError> {
    let mut record = ByteRecord::new(alloc);
    let mut text = RowText::new(alloc);
    for row in given.split('/').skip(1) {
        record.clear();
        fill(alloc, &mut record, row)?;
        text = text.push(&record)?;
    }
    show_text(to, text.into_text()?.as_slice())
}

fn show_text(to: &mut String, text: &[u8]) -> Result<(), AllocError> {
    to.push_str("    text: ")?;
    if text.is_empty() {
        to.push_str("none")?;
    }
    show_bytes(to, text)?;
    to.push('\n')
}

/// Puts the fields between bars into a record.
fn fill(alloc: Global, record: &mut ByteRecord, row: &str) -> Result<(), AllocError> {
    for field in row.split('|') {
        let bytes = spelled(alloc, field.as_bytes())?;
        record.push_field(bytes.as_slice())?;
    }
    Ok(())
}
