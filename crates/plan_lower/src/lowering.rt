//! The program of a plan.

ghost use Rattle.std.specs.Prelude.{◌≡◌, IfOk, OnOk, option_to_list};
ghost use Rattle.program_writers.specs.Codes.{Adds};
ghost use Rattle.plan_programs.specs.Lowered as spec;
ghost use Rattle.plan_programs.specs.Rows as rows;

use crate::items::answered;
use control_plan::ControlPlan;
use control_vectors::ControlVector;
use dict_codes::Dictionary;
use group_lower::grouped;
use io_edge::{Name, NoMemory};
use program_writers::Writer;
use programs::Program;
use rel_plan::RelPlan;
use row_lower::rows::{kept, rows_of};
use row_lower::sites::Base;
use sql_read::TableDef;
use std::alloc::Global;
use table_load::Database;
use typed_trees::{PlanSource, TypedExpr};

/// The rows of a table, by the place of its definition; nothing where there is no such definition.
fn table_rows(
    alloc: Global,
    w: &mut Writer,
    defs: &[TableDef],
    table: u32,
    columns: &[u32],
) -> Result<Base, NoMemory>
    ensures { IfOk result (λ b. Adds (spec.table_rows defs.now table columns.now) w.old w.new b) }
{
    match defs.get(table as usize) {
        None => nothing(alloc),
        Some(def) => rows_of(alloc, w, def, 0, columns),
    }
}

/// No rows, of no vector.
fn nothing(alloc: Global) -> Result<Base, NoMemory>
    ensures { IfOk result (λ b. b ≡ spec.nothing) }
{
    Ok(Base::marked_alone(alloc, Name::of(alloc, "")?))
}

/// A source's rows, but for those that its conditions drop.
fn source_rows(
    alloc: Global,
    w: &mut Writer,
    select: ControlVector,
    dictionary: &Dictionary,
    defs: &[TableDef],
    s: &PlanSource,
) -> Result<Base, NoMemory>
    ensures { IfOk result (λ b. Adds (spec.source_rows select dictionary.now defs.now s.now) w.old w.new b) }
{
    let b = table_rows(alloc, w, defs, s.table, s.columns.as_slice())?;
    kept(alloc, w, select, dictionary, b, s.filter.as_slice())
}

/// The rows of FROM.
fn from_rows(
    alloc: Global,
    w: &mut Writer,
    select: ControlVector,
    dictionary: &Dictionary,
    defs: &[TableDef],
    sources: &[PlanSource],
) -> Result<Base, NoMemory>
    ensures { IfOk result (λ b. Adds (spec.from_rows select dictionary.now defs.now sources.now) w.old w.new b) }
{
    match sources.first() {
        None => nothing(alloc),
        Some(s) => source_rows(alloc, w, select, dictionary, defs, s),
    }
}

/// The groups for which HAVING is true.
fn having_true(
    alloc: Global,
    w: &mut Writer,
    select: ControlVector,
    dictionary: &Dictionary,
    groups: Base,
    having: &Option<TypedExpr>,
) -> Result<Base, NoMemory>
    ensures { IfOk result (λ b. Adds (rows.kept select dictionary.now groups (option_to_list having.now)) w.old w.new b) }
{
    match having {
        None => Ok(groups),
        Some(e) => kept(
            alloc,
            w,
            select,
            dictionary,
            groups,
            std::slice::from_ref(e),
        ),
    }
}

/// The rows or the groups that items are evaluated on.
fn stands_on(
    alloc: Global,
    w: &mut Writer,
    select: ControlVector,
    dictionary: &Dictionary,
    p: &RelPlan,
    b: Base,
) -> Result<Base, NoMemory>
    ensures { IfOk result (λ on. Adds (spec.stands_on select dictionary.now p.now p.now.grouped b) w.old w.new on) }
{
    if p.grouped {
        let groups = grouped(
            alloc,
            w,
            dictionary,
            b,
            p.groups.as_slice(),
            p.aggregates.as_slice(),
        )?;
        having_true(alloc, w, select, dictionary, groups, &p.having)
    } else {
        Ok(b)
    }
}

/// The statements of a plan.
fn program(
    alloc: Global,
    w: &mut Writer,
    select: ControlVector,
    dictionary: &Dictionary,
    defs: &[TableDef],
    p: &RelPlan,
) -> Result<(), NoMemory>
    ensures { OnOk result (Adds (spec.program select dictionary.now defs.now p.now) w.old w.new (record {})) }
{
    let rows = from_rows(alloc, w, select, dictionary, defs, p.sources.as_slice())?;
    let b = kept(alloc, w, select, dictionary, rows, p.filter.as_slice())?;
    let on = stands_on(alloc, w, select, dictionary, p, b)?;
    answered(
        alloc,
        w,
        dictionary,
        &on,
        p.items.as_slice(),
        p.order.as_slice(),
    )
}

/// The program of a plan over the first of its tables, whose only result is named `answer`. It has the attributes `.c1`, `.c2` and so on, and
/// `.mark`: the places whose mark is nonempty are its first ones, and hold the rows of the plan's answer in order, a date as its day, a text as
/// its code, and a null as an empty slot. It fails only for want of memory.
pub fn lower(
    alloc: Global,
    p: &RelPlan,
    c: &ControlPlan,
    db: &Database,
) -> Result<Program, NoMemory>
    ensures { IfOk result (λ program. program ≡ spec.lowered c.now.select db.now p.now) }
{
    let mut w = Writer::new(alloc);
    program(alloc, &mut w, c.select(), db.dictionary(), db.defs(), p)?;
    Ok(Program::new(w.done()))
}
