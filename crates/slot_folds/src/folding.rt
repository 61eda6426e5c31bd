//! The folds over runs.
ghost use Rattle.std.specs.Prelude.{◌≡◌, ◌+◌, ◌-◌, ◌<◌, ◌≤◌, length, Ok};
ghost use Rattle.control_vectors.specs.Slots.{all_slots};
ghost use Rattle.slot_columns.specs.Stops.{Exact};
ghost use Rattle.slot_folds.specs.Folds.{folded, scanned, selected};
ghost use Rattle.slot_folds.specs.Jobs.{Extends, job_from, job_run};

use crate::pushing::{push_fold, push_scan, push_select};
use crate::run_ends::run_end;
use control_vectors::FoldKind;
use slot_columns::{ColumnBuilder, Stop};
use std::alloc::Global;
use struct_vectors::Column;

/// What is made of each run.
#[derive(Clone, Copy)]
pub enum Job {
    /// The fold of its slots at its first place.
    Fold(FoldKind),
    /// The places of its slots that are neither empty nor 0.
    Select,
    /// The totals of its slots up to each place.
    Scan,
}

/// FoldSum, FoldMin and FoldMax: at the first place of each run the fold of its nonempty slots, empty
/// where there are none; elsewhere empty. A run begins at the first place and at each mark.
pub fn fold_runs(
    alloc: Global,
    kind: FoldKind,
    marks: &[bool],
    values: &Column,
) -> Result<Column, Stop>
    requires { length marks.now ≡ length values.now.slots }
    ensures { Exact (λ c. c.slots) result (all_slots (folded kind marks.now values.now.slots)) }
{
    by_runs(alloc, Job::Fold(kind), marks, values)
}

/// FoldSelect: in each run the places whose slot is neither empty nor 0, from its first place on, then
/// empty. It never stops with an overflow.
pub fn select_runs(alloc: Global, marks: &[bool], values: &Column) -> Result<Column, Stop>
    requires { length marks.now ≡ length values.now.slots }
    ensures { Exact (λ c. c.slots) result (Ok (selected marks.now values.now.slots)) }
{
    by_runs(alloc, Job::Select, marks, values)
}

/// FoldScan: at each place the total of its run's nonempty slots up to and with it; empty where the
/// slot is.
pub fn scan_runs(alloc: Global, marks: &[bool], values: &Column) -> Result<Column, Stop>
    requires { length marks.now ≡ length values.now.slots }
    ensures { Exact (λ c. c.slots) result (all_slots (scanned marks.now values.now.slots)) }
{
    by_runs(alloc, Job::Scan, marks, values)
}

/// What a job makes of the runs, one after another.
fn by_runs(alloc: Global, job: Job, marks: &[bool], values: &Column) -> Result<Column, Stop>
    requires { length marks.now ≡ length values.now.slots }
    ensures { Exact (λ c. c.slots) result (all_slots (job_from job marks.now values.now.slots 0)) }
{
    let mut builder = ColumnBuilder::with_room(alloc, values.len())?;
    let mut from = 0;
    while from < marks.len() {
        let to = run_end(marks, from);
        match push_run(&mut builder, job, values, from as u32, to as u32) {
            Ok(()) => from = to,
            Err(stop) => return Err(stop),
        }
    }
    Ok(builder.done())
}

/// Appends what a job makes of one run.
fn push_run(
    builder: &mut ColumnBuilder,
    job: Job,
    values: &Column,
    from: u32,
    to: u32,
) -> Result<(), Stop>
    requires order { from < to }
    requires within { to ≤ length values.now.slots }
    requires room { length builder.old.slots + (to - from) ≤ builder.old.room }
    ensures { Extends result builder.old builder.new (job_run job values.now.slots from to) }
{
    match job {
        Job::Fold(kind) => push_fold(builder, kind, values, from, to),
        Job::Select => push_select(builder, values, from, to),
        Job::Scan => push_scan(builder, values, from, to),
    }
}
