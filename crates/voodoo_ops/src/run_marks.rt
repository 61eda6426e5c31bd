//! Where the runs of a vector begin.

ghost use Rattle.std.specs.Prelude.{◌≡◌, ◌||◌, ◌<◌, ℕ, length, false, replicate, slice_index_or, IfOk};
ghost use Rattle.control_vectors.specs.Runs.{differs};
ghost use Rattle.voodoo_ops.specs.Runs.{changes_below, run_marks};
ghost use Rattle.programs.specs.Vectors.{seen};

use crate::NoMemory;
use held_vectors::HeldVector;
use key_paths::Path;
use programs::reach::no_marks;
use std::alloc::Global;
use struct_vectors::Column;

/// For each place, whether a run of the tuples at or below a path begins there.
pub(crate) fn marks_of(alloc: Global, v: &HeldVector, run: &Path) -> Result<Vec<bool>, NoMemory>
    ensures { IfOk result (λ m. m.items ≡ run_marks (seen v.now) run.now) }
{
    let mut marks = no_marks(alloc, v.len() as usize)?;
    mark_runs(marks.as_mut_slice(), v, run);
    Ok(marks)
}

/// Marks the first place of each run.
fn mark_runs(marks: &mut [bool], v: &HeldVector, run: &Path)
    requires { marks.old ≡ replicate v.now.length false }
    ensures { marks.new ≡ run_marks (seen v.now) run.now }
{
    if marks.len() > 0 {
        marks[0] = true;
    }
    for attribute in v.attributes() {
        mark_below(marks, attribute, run);
    }
}

/// Marks each place but the first at which an attribute changes, where it stands at or below a path.
fn mark_below(marks: &mut [bool], attribute: &(Path, Column), run: &Path)
    requires { length marks.old ≡ length attribute.now.1.slots }
    ensures first { slice_index_or marks.new 0 false ≡ slice_index_or marks.old 0 false }
    ensures later { (i : ℕ) → 0 < i → i < length marks.old → slice_index_or marks.new i false
        ≡ (slice_index_or marks.old i false || changes_below run.now (attribute.now.0, attribute.now.1.slots) i) }
{
    if attribute.0.starts_with(run) {
        mark_changes(marks, &attribute.1);
    }
}

/// Marks each place but the first at which the slot differs from the one before.
fn mark_changes(marks: &mut [bool], column: &Column)
    requires { length marks.old ≡ length column.now.slots }
    ensures first { slice_index_or marks.new 0 false ≡ slice_index_or marks.old 0 false }
    ensures later { (i : ℕ) → 0 < i → i < length marks.old
        → slice_index_or marks.new i false ≡ (slice_index_or marks.old i false || differs column.now.slots i) }
{
    for i in 1..column.len() {
        if column.get(i) != column.get(i - 1) {
            marks[i as usize] = true;
        }
    }
}
