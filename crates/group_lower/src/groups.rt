//! Groups of rows.

ghost use Rattle.std.specs.Prelude.{◌≡◌, IfOk, map};
ghost use Rattle.std.specs.List.{enumerate_from};
ghost use Rattle.program_writers.specs.Codes.{Adds};
ghost use Rattle.program_writers.specs.Writers.{through};
ghost use Rattle.plan_programs.specs.Groups as spec;
ghost use Rattle.plan_programs.specs.Sites.{path_in};

use crate::paths::{key_path, run_mark_path, run_path};
use control_vectors::{ControlVector, PairKind};
use io_edge::{Name, NoMemory};
use key_paths::Path;
use program_writers::Writer;
use program_writers::operators::{
    at_places, attribute, fold_of, order, pair, project, range, with_attribute,
};
use program_writers::paths::{mark, out, run, val};
use programs::{FoldOperator, OrderKeys, OrderPath, Size};
use row_lower::parts::{made, mark_of, ones, zeros};
use row_lower::rows::along;
use row_lower::sites::Base;
use std::alloc::Global;
use std::marker::Model;
use typed_trees::ColumnRef;

/// What aggregates are folded over.
pub struct Folding {
    /// The rows.
    pub rows: Base,
    /// A 0 at each of them.
    pub nought: Name,
    /// Their runs.
    pub runs: Name,
    /// The place that each fold is gathered from, where it is not left where its run begins.
    pub first: Option<Name>,
    /// The groups so far.
    pub groups: Base,
    /// A 0 at each of them.
    pub zero: Name,
}

// Written out, so that letting go of one is a call.
impl Drop for Folding {
    fn drop(self) {
        let Folding {
            rows: _,
            nought: _,
            runs: _,
            first: _,
            groups: _,
            zero: _,
        } = self;
    }
}

impl Model for Folding {
    ghost use Rattle.plan_programs.specs.Groups.{Folding as Folded};

    ghost Value = { Folded };

    ghost view = { λ f. record { rows = f.rows; nought = f.nought; runs = f.runs; first = f.first; groups = f.groups; zero = f.zero } };
}

/// 0 where a row or a group stands.
fn nought_at(alloc: Global, w: &mut Writer, vector: &Name) -> Result<Name, NoMemory>
    ensures { IfOk result (λ n. Adds (spec.nought_at vector.now) w.old w.new n) }
{
    let x = mark_of(alloc, vector)?;
    let y = mark_of(alloc, vector)?;
    let op = pair(alloc, PairKind::Greater, x, y)?;
    w.make("nought", op)
}

/// The group columns as keys, each ascending.
fn sort_keys(alloc: Global, b: &Base, columns: &[ColumnRef]) -> Result<OrderKeys, NoMemory>
    ensures { IfOk result (λ keys. keys ≡ map (λ c. spec.ascending (path_in b.now c)) columns.now) }
{
    let mut keys = Vec::with_capacity(alloc, columns.len())?;
    for c in columns {
        keys.push(OrderPath {
            path: b.path_in(alloc, *c)?,
            descending: false,
        })?;
    }
    Ok(OrderKeys::new(keys))
}

/// The rows, sorted by the group columns.
fn sorted(alloc: Global, w: &mut Writer, b: Base, columns: &[ColumnRef]) -> Result<Base, NoMemory>
    ensures { IfOk result (λ c. Adds (spec.sorted b columns.now) w.old w.new c) }
{
    let keys = sort_keys(alloc, &b, columns)?;
    let mark = mark(alloc)?;
    let op = order(alloc, &b.vector, &mark, keys)?;
    let places = w.make("order", op)?;
    let op = at_places(alloc, &b.vector, &places)?;
    let rows = w.make("sorted", op)?;
    Ok(b.moved_to(rows))
}

/// A group column more.
fn run_by(
    alloc: Global,
    w: &mut Writer,
    rows: &Base,
    runs: &Name,
    j: usize,
    c: ColumnRef,
) -> Result<Name, NoMemory>
    ensures { IfOk result (λ n. Adds (spec.run_by rows.now runs.now (j, c)) w.old w.new n) }
{
    let p = run_path(alloc, j)?;
    let q = rows.path_in(alloc, c)?;
    let op = with_attribute(alloc, runs, &p, &rows.vector, &q)?;
    w.make("runs", op)
}

/// The group columns, one by one.
fn runs_by(
    alloc: Global,
    w: &mut Writer,
    rows: &Base,
    runs: Name,
    columns: &[ColumnRef],
) -> Result<Name, NoMemory>
    ensures { IfOk result (λ n. Adds (through (spec.run_by rows.now) runs (enumerate_from 0 columns.now)) w.old w.new n) }
{
    let mut runs = runs;
    for j in 0..columns.len() {
        runs = run_by(alloc, w, rows, &runs, j, columns[j])?;
    }
    Ok(runs)
}

/// The group columns and the mark.
fn runs_of(
    alloc: Global,
    w: &mut Writer,
    rows: &Base,
    columns: &[ColumnRef],
) -> Result<Name, NoMemory>
    ensures { IfOk result (λ n. Adds (spec.runs_of rows.now columns.now) w.old w.new n) }
{
    let mark = mark(alloc)?;
    let run_mark = run_mark_path(alloc)?;
    let op = project(alloc, &rows.vector, &mark, &run_mark)?;
    let runs = w.make("runs", op)?;
    runs_by(alloc, w, rows, runs, columns)
}

/// A group column's value where a group stands.
fn key_of(
    alloc: Global,
    w: &mut Writer,
    rows: &Base,
    zero: &Name,
    groups: Base,
    j: usize,
    c: ColumnRef,
) -> Result<Base, NoMemory>
    ensures { IfOk result (λ b. Adds (spec.key_of rows.now zero.now groups (j, c)) w.old w.new b) }
{
    let x = made(alloc, zero)?;
    let q = rows.path_in(alloc, c)?;
    let y = attribute(alloc, &rows.vector, &q)?;
    let op = pair(alloc, PairKind::Add, x, y)?;
    let key = w.make("key", op)?;
    let p = key_path(alloc, j)?;
    let out = out(alloc)?;
    let op = with_attribute(alloc, &groups.vector, &p, &key, &out)?;
    let vector = w.make("groups", op)?;
    groups.with_column(vector, c, p)
}

/// The group columns' values, one by one.
fn keys_of(
    alloc: Global,
    w: &mut Writer,
    rows: &Base,
    zero: &Name,
    groups: Base,
    columns: &[ColumnRef],
) -> Result<Base, NoMemory>
    ensures { IfOk result (λ b. Adds (through (spec.key_of rows.now zero.now) groups (enumerate_from 0 columns.now)) w.old w.new b) }
{
    let mut groups = groups;
    for j in 0..columns.len() {
        groups = key_of(alloc, w, rows, zero, groups, j, columns[j])?;
    }
    Ok(groups)
}

/// A mark where a run of marks begins.
fn first_marks(alloc: Global, w: &mut Writer, marks: &Name) -> Result<Name, NoMemory>
    ensures { IfOk result (λ n. Adds (spec.first_marks marks.now) w.old w.new n) }
{
    let out = out(alloc)?;
    let mark = mark(alloc)?;
    let op = fold_of(alloc, FoldOperator::Max, marks)?;
    let firsts = w.make("firsts", op)?;
    let op = project(alloc, &firsts, &out, &mark)?;
    w.make("groups", op)
}

/// A group stands where its run begins.
fn run_groups(alloc: Global, w: &mut Writer, rows: &Base, runs: &Name) -> Result<Name, NoMemory>
    ensures { IfOk result (λ n. Adds (spec.run_groups rows.now runs.now) w.old w.new n) }
{
    let val = val(alloc)?;
    let mark = mark(alloc)?;
    let op = with_attribute(alloc, runs, &val, &rows.vector, &mark)?;
    let marks = w.make("marks", op)?;
    first_marks(alloc, w, &marks)
}

/// The groups that stand in a vector, with their columns' values.
fn keyed(
    alloc: Global,
    w: &mut Writer,
    rows: Base,
    columns: &[ColumnRef],
    nought: Name,
    runs: Name,
    vector: Name,
) -> Result<Folding, NoMemory>
    ensures { IfOk result (λ f. Adds (spec.keyed rows columns.now nought runs vector) w.old w.new f) }
{
    let zero = nought_at(alloc, w, &vector)?;
    let groups = Base::marked_alone(alloc, vector);
    let groups = keys_of(alloc, w, &rows, &zero, groups, columns)?;
    Ok(Folding {
        rows,
        nought,
        runs,
        first: None,
        groups,
        zero,
    })
}

/// The groups of sorted rows, in their runs.
fn keyed_groups(
    alloc: Global,
    w: &mut Writer,
    rows: Base,
    columns: &[ColumnRef],
    nought: Name,
    runs: Name,
) -> Result<Folding, NoMemory>
    ensures { IfOk result (λ f. Adds (spec.keyed_groups rows columns.now nought runs) w.old w.new f) }
{
    let vector = run_groups(alloc, w, &rows, &runs)?;
    keyed(alloc, w, rows, columns, nought, runs, vector)
}

/// Groups by their columns: the rows are sorted, and each run of one tuple is a group.
fn by_columns(
    alloc: Global,
    w: &mut Writer,
    b: Base,
    columns: &[ColumnRef],
) -> Result<Folding, NoMemory>
    ensures { IfOk result (λ f. Adds (spec.by_columns b columns.now) w.old w.new f) }
{
    let rows = sorted(alloc, w, b, columns)?;
    let nought = nought_at(alloc, w, &rows.vector)?;
    let runs = runs_of(alloc, w, &rows, columns)?;
    keyed_groups(alloc, w, rows, columns, nought, runs)
}

/// A vector of one place.
fn one_place(
    alloc: Global,
    w: &mut Writer,
    word: &str,
    p: &Path,
    control: ControlVector,
) -> Result<Name, NoMemory>
    ensures { IfOk result (λ n. Adds (spec.one_place word.now p.now control) w.old w.new n) }
{
    let op = range(alloc, Size::Number(1), p, control)?;
    w.make(word, op)
}

/// One run of all places.
fn one_run(alloc: Global, w: &mut Writer, vector: &Name) -> Result<Name, NoMemory>
    ensures { IfOk result (λ n. Adds (spec.one_run vector.now) w.old w.new n) }
{
    let run = run(alloc)?;
    let op = along(alloc, vector, &run, zeros())?;
    w.make("runs", op)
}

/// The one group, in a vector of one place.
fn one_group(
    alloc: Global,
    w: &mut Writer,
    b: Base,
    nought: Name,
    runs: Name,
) -> Result<Folding, NoMemory>
    ensures { IfOk result (λ f. Adds (spec.one_group b nought runs) w.old w.new f) }
{
    let out = out(alloc)?;
    let mark = mark(alloc)?;
    let first = one_place(alloc, w, "first", &out, zeros())?;
    let groups = one_place(alloc, w, "groups", &mark, ones())?;
    let zero = nought_at(alloc, w, &groups)?;
    Ok(Folding {
        rows: b,
        nought,
        runs,
        first: Some(first),
        groups: Base::marked_alone(alloc, groups),
        zero,
    })
}

/// One group, even of no rows.
fn as_one(alloc: Global, w: &mut Writer, b: Base) -> Result<Folding, NoMemory>
    ensures { IfOk result (λ f. Adds (spec.as_one b) w.old w.new f) }
{
    let nought = nought_at(alloc, w, &b.vector)?;
    let runs = one_run(alloc, w, &b.vector)?;
    one_group(alloc, w, b, nought, runs)
}

/// What the aggregates of some rows are folded over.
pub fn folding_of(
    alloc: Global,
    w: &mut Writer,
    b: Base,
    columns: &[ColumnRef],
) -> Result<Folding, NoMemory>
    ensures { IfOk result (λ f. Adds (spec.folding b columns.now) w.old w.new f) }
{
    if columns.len() == 0 {
        as_one(alloc, w, b)
    } else {
        by_columns(alloc, w, b, columns)
    }
}
