//! Folds over runs.

use case_columns::{column, show_made};
use control_vectors::FoldKind;
use slot_folds::{fold_runs, scan_runs, select_runs};
use std::alloc::{AllocError, Global};

/// Which slots stand first in their run.
fn marks(alloc: Global, text: &str) -> Result<Vec<bool>, AllocError> {
    let mut marks = Vec::new(alloc);
    let mut begins = false;
    for word in text.split_whitespace() {
        if word == "/" {
            begins = true;
        } else {
            marks.push(begins)?;
            begins = false;
        }
    }
    Ok(marks)
}

pub fn answer(alloc: Global, name: &str, text: &str, to: &mut String) -> Result<(), AllocError> {
    let marks = marks(alloc, text)?;
    let values = column(alloc, text)?;
    if marks.len() != values.len() as usize {
        return to.push_str(" no case");
    }
    let marks = marks.as_slice();
    let made = match name {
        "FoldSum" => fold_runs(alloc, FoldKind::Sum, marks, &values),
        "FoldMin" => fold_runs(alloc, FoldKind::Min, marks, &values),
        "FoldMax" => fold_runs(alloc, FoldKind::Max, marks, &values),
        "FoldSelect" => select_runs(alloc, marks, &values),
        _ => scan_runs(alloc, marks, &values),
    };
    show_made(to, made)
}
