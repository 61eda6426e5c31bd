//! The rows of a table, and those of them for which conditions are true.

ghost use Rattle.std.specs.Prelude.{◌≡◌, IfOk};
ghost use Rattle.program_writers.specs.Codes.{Adds};
ghost use Rattle.program_writers.specs.Writers.{through};
ghost use Rattle.plan_programs.specs.Rows as spec;

use crate::parts::{made, mark_of, ones};
use crate::paths::{named_path, value_path};
use crate::sites::{Base, value_of};
use control_vectors::{ControlVector, PairKind};
use dict_codes::Dictionary;
use io_edge::{Name, NoMemory};
use key_paths::Path;
use program_writers::Writer;
use program_writers::operators::{at_places, fold_of, load, pair, range, with_attribute};
use program_writers::paths::{mark, out, run, val};
use programs::{FoldOperator, Op, Size};
use sql_read::TableDef;
use std::alloc::Global;
use typed_trees::{ColumnRef, TypedExpr};

/// Where a table has a column.
fn loaded_path(alloc: Global, def: &TableDef, k: u32) -> Result<Path, NoMemory>
    ensures { IfOk result (λ p. p ≡ spec.loaded_path def.now k) }
{
    let Some(column) = def.columns.as_slice().get(k as usize) else {
        return out(alloc);
    };
    let name = column.name.text();
    let text = format!(in alloc; ".{name}")?;
    named_path(alloc, text.as_str())
}

/// A control vector along a vector.
pub fn along(alloc: Global, a: &Name, p: &Path, control: ControlVector) -> Result<Op, NoMemory>
    ensures { IfOk result (λ o. o ≡ Op.Range (Size.Of a.now) p.now control) }
{
    let size = Size::Of(a.copied(alloc)?);
    range(alloc, size, p, control)
}

/// A column more, from the table that was loaded.
fn column_in(
    alloc: Global,
    w: &mut Writer,
    def: &TableDef,
    source: u32,
    table: &Name,
    b: Base,
    k: u32,
) -> Result<Base, NoMemory>
    ensures { IfOk result (λ c. Adds (spec.column_in def.now source table.now b k) w.old w.new c) }
{
    let p = value_path(alloc, b.places.columns.len())?;
    let q = loaded_path(alloc, def, k)?;
    let op = with_attribute(alloc, &b.vector, &p, table, &q)?;
    let rows = w.make("rows", op)?;
    b.with_column(rows, ColumnRef { source, column: k }, p)
}

/// A vector whose mark is 1 at each row of a table.
fn marked(alloc: Global, w: &mut Writer, table: &Name) -> Result<Name, NoMemory>
    ensures { IfOk result (λ n. Adds (spec.marked table.now) w.old w.new n) }
{
    let mark = mark(alloc)?;
    let op = along(alloc, table, &mark, ones())?;
    w.make("rows", op)
}

/// The columns that are asked for, one by one.
fn columns_in(
    alloc: Global,
    w: &mut Writer,
    def: &TableDef,
    source: u32,
    table: &Name,
    b: Base,
    columns: &[u32],
) -> Result<Base, NoMemory>
    ensures { IfOk result (λ c. Adds (through (spec.column_in def.now source table.now) b columns.now) w.old w.new c) }
{
    let mut b = b;
    for k in columns {
        b = column_in(alloc, w, def, source, table, b, *k)?;
    }
    Ok(b)
}

/// The source with this number, whose table is loaded.
pub fn rows_of(
    alloc: Global,
    w: &mut Writer,
    def: &TableDef,
    source: u32,
    columns: &[u32],
) -> Result<Base, NoMemory>
    ensures { IfOk result (λ b. Adds (spec.rows_of def.now source columns.now) w.old w.new b) }
{
    let op = load(alloc, def.name.text())?;
    let table = w.make("table", op)?;
    let marked = marked(alloc, w, &table)?;
    let b = Base::marked_alone(alloc, marked);
    columns_in(alloc, w, def, source, &table, b, columns)
}

/// 1 where a row stands.
pub fn everywhere(alloc: Global, w: &mut Writer, b: &Base) -> Result<Name, NoMemory>
    ensures { IfOk result (λ all. Adds (spec.everywhere b.now) w.old w.new all) }
{
    let x = mark_of(alloc, &b.vector)?;
    let y = mark_of(alloc, &b.vector)?;
    let op = pair(alloc, PairKind::Equals, x, y)?;
    w.make("all", op)
}

/// What is true so far, and of a condition more.
fn and_true(
    alloc: Global,
    w: &mut Writer,
    dictionary: &Dictionary,
    b: &Base,
    all: &Name,
    e: &TypedExpr,
) -> Result<Name, NoMemory>
    ensures { IfOk result (λ next. Adds (spec.and_true dictionary.now b.now all.now e.now) w.old w.new next) }
{
    let value = value_of(alloc, w, dictionary, "where", b, e)?;
    let x = made(alloc, all)?;
    let y = made(alloc, &value)?;
    let op = pair(alloc, PairKind::LogicalAnd, x, y)?;
    w.make("all", op)
}

/// The conditions, one by one.
fn all_true(
    alloc: Global,
    w: &mut Writer,
    dictionary: &Dictionary,
    b: &Base,
    all: Name,
    conditions: &[TypedExpr],
) -> Result<Name, NoMemory>
    ensures { IfOk result (λ next. Adds (through (spec.and_true dictionary.now b.now) all conditions.now) w.old w.new next) }
{
    let mut all = all;
    for e in conditions {
        all = and_true(alloc, w, dictionary, b, &all, e)?;
    }
    Ok(all)
}

/// The places that a truth holds, in some runs.
fn picked(alloc: Global, w: &mut Writer, runs: &Name, all: &Name) -> Result<Name, NoMemory>
    ensures { IfOk result (λ n. Adds (spec.picked runs.now all.now) w.old w.new n) }
{
    let val = val(alloc)?;
    let out = out(alloc)?;
    let op = with_attribute(alloc, runs, &val, all, &out)?;
    let pick = w.make("pick", op)?;
    let op = fold_of(alloc, FoldOperator::Select, &pick)?;
    w.make("places", op)
}

/// The places that a truth holds, in the runs of a control vector.
fn places_of(
    alloc: Global,
    w: &mut Writer,
    select: ControlVector,
    vector: &Name,
    all: &Name,
) -> Result<Name, NoMemory>
    ensures { IfOk result (λ n. Adds (spec.places_of select vector.now all.now) w.old w.new n) }
{
    let run = run(alloc)?;
    let op = along(alloc, vector, &run, select)?;
    let runs = w.make("runs", op)?;
    picked(alloc, w, &runs, all)
}

/// The rows at the places that a truth holds.
fn selected(
    alloc: Global,
    w: &mut Writer,
    select: ControlVector,
    b: Base,
    all: &Name,
) -> Result<Base, NoMemory>
    ensures { IfOk result (λ c. Adds (spec.selected select b all.now) w.old w.new c) }
{
    let places = places_of(alloc, w, select, &b.vector, all)?;
    let op = at_places(alloc, &b.vector, &places)?;
    let rows = w.make("rows", op)?;
    Ok(b.moved_to(rows))
}

/// The rows for which each of some conditions is true.
pub fn kept(
    alloc: Global,
    w: &mut Writer,
    select: ControlVector,
    dictionary: &Dictionary,
    b: Base,
    conditions: &[TypedExpr],
) -> Result<Base, NoMemory>
    ensures { IfOk result (λ c. Adds (spec.kept select dictionary.now b conditions.now) w.old w.new c) }
{
    if conditions.len() == 0 {
        return Ok(b);
    }
    let all = everywhere(alloc, w, &b)?;
    let all = all_true(alloc, w, dictionary, &b, all, conditions)?;
    selected(alloc, w, select, b, &all)
}
