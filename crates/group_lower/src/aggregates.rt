//! The values of aggregates.

ghost use Rattle.std.specs.Prelude.{◌≡◌, IfOk};
ghost use Rattle.std.specs.List.{enumerate_from};
ghost use Rattle.program_writers.specs.Codes.{Adds};
ghost use Rattle.program_writers.specs.Writers.{through};
ghost use Rattle.plan_programs.specs.Groups as spec;

use crate::groups::{Folding, folding_of};
use crate::paths::aggregate_path;
use control_vectors::PairKind;
use dict_codes::Dictionary;
use io_edge::{Name, NoMemory};
use program_writers::Writer;
use program_writers::operators::{at_places, fold_of, pair, with_attribute};
use program_writers::paths::{out, val};
use programs::FoldOperator;
use row_lower::parts::made;
use row_lower::rows::everywhere;
use row_lower::sites::{Base, value_of};
use std::alloc::Global;
use typed_trees::{Aggregate, AggregateKind, ColumnRef, TypedExpr};

/// A fold, where the groups stand.
fn collected(
    alloc: Global,
    w: &mut Writer,
    first: &Option<Name>,
    folded: Name,
) -> Result<Name, NoMemory>
    ensures { IfOk result (λ n. Adds (spec.collected first.now folded) w.old w.new n) }
{
    match first {
        None => Ok(folded),
        Some(first) => {
            let op = at_places(alloc, &folded, first)?;
            w.make("one", op)
        }
    }
}

/// The fold of the values of a vector, where the groups stand.
fn fold_in(
    alloc: Global,
    w: &mut Writer,
    first: &Option<Name>,
    kind: FoldOperator,
    values: &Name,
) -> Result<Name, NoMemory>
    ensures { IfOk result (λ n. Adds (spec.fold_in first.now kind values.now) w.old w.new n) }
{
    let op = fold_of(alloc, kind, values)?;
    let fold = w.make("fold", op)?;
    collected(alloc, w, first, fold)
}

/// The fold of a value.
fn folded(
    alloc: Global,
    w: &mut Writer,
    f: &Folding,
    kind: FoldOperator,
    value: &Name,
) -> Result<Name, NoMemory>
    ensures { IfOk result (λ n. Adds (spec.folded f.now kind value.now) w.old w.new n) }
{
    let val = val(alloc)?;
    let out = out(alloc)?;
    let op = with_attribute(alloc, &f.runs, &val, value, &out)?;
    let values = w.make("values", op)?;
    fold_in(alloc, w, &f.first, kind, &values)
}

/// 1 where a row has a value.
fn same_in(alloc: Global, w: &mut Writer, value: &Name) -> Result<Name, NoMemory>
    ensures { IfOk result (λ n. Adds (spec.same_in value.now) w.old w.new n) }
{
    let x = made(alloc, value)?;
    let y = made(alloc, value)?;
    let op = pair(alloc, PairKind::Equals, x, y)?;
    w.make("same", op)
}

/// 1 where a row has a value, 0 where it has a null.
fn is_there(alloc: Global, w: &mut Writer, f: &Folding, value: &Name) -> Result<Name, NoMemory>
    ensures { IfOk result (λ n. Adds (spec.is_there f.now value.now) w.old w.new n) }
{
    let same = same_in(alloc, w, value)?;
    let x = made(alloc, &same)?;
    let y = made(alloc, &f.nought)?;
    let op = pair(alloc, PairKind::Fill, x, y)?;
    w.make("there", op)
}

/// How many rows have a value.
fn counted(alloc: Global, w: &mut Writer, f: &Folding, value: &Name) -> Result<Name, NoMemory>
    ensures { IfOk result (λ n. Adds (spec.counted f.now value.now) w.old w.new n) }
{
    let there = is_there(alloc, w, f, value)?;
    folded(alloc, w, f, FoldOperator::Sum, &there)
}

/// COUNT, which is 0 of no row.
fn count(alloc: Global, w: &mut Writer, f: &Folding, value: &Name) -> Result<Name, NoMemory>
    ensures { IfOk result (λ n. Adds (spec.count f.now value.now) w.old w.new n) }
{
    let n = counted(alloc, w, f, value)?;
    let x = made(alloc, &n)?;
    let y = made(alloc, &f.zero)?;
    let op = pair(alloc, PairKind::Fill, x, y)?;
    w.make("count", op)
}

/// AVG: the sum divided by how many there are.
fn mean(alloc: Global, w: &mut Writer, f: &Folding, value: &Name) -> Result<Name, NoMemory>
    ensures { IfOk result (λ n. Adds (spec.mean f.now value.now) w.old w.new n) }
{
    let total = folded(alloc, w, f, FoldOperator::Sum, value)?;
    let n = counted(alloc, w, f, value)?;
    let x = made(alloc, &total)?;
    let y = made(alloc, &n)?;
    let op = pair(alloc, PairKind::Divide, x, y)?;
    w.make("mean", op)
}

fn aggregated(
    alloc: Global,
    w: &mut Writer,
    f: &Folding,
    kind: AggregateKind,
    value: &Name,
) -> Result<Name, NoMemory>
    ensures { IfOk result (λ n. Adds (spec.aggregated f.now kind value.now) w.old w.new n) }
{
    match kind {
        AggregateKind::Count => count(alloc, w, f, value),
        AggregateKind::Sum => folded(alloc, w, f, FoldOperator::Sum, value),
        AggregateKind::Min => folded(alloc, w, f, FoldOperator::Min, value),
        AggregateKind::Max => folded(alloc, w, f, FoldOperator::Max, value),
        AggregateKind::Avg => mean(alloc, w, f, value),
    }
}

/// The argument's value. COUNT(*) counts a 1 for each row.
fn argument(
    alloc: Global,
    w: &mut Writer,
    dictionary: &Dictionary,
    f: &Folding,
    argument: &Option<TypedExpr>,
) -> Result<Name, NoMemory>
    ensures { IfOk result (λ n. Adds (spec.argument dictionary.now f.now argument.now) w.old w.new n) }
{
    match argument {
        None => everywhere(alloc, w, &f.rows),
        Some(e) => value_of(alloc, w, dictionary, "argument", &f.rows, e),
    }
}

/// An aggregate more.
fn aggregate_of(
    alloc: Global,
    w: &mut Writer,
    dictionary: &Dictionary,
    f: &Folding,
    groups: Base,
    n: usize,
    a: &Aggregate,
) -> Result<Base, NoMemory>
    ensures { IfOk result (λ b. Adds (spec.aggregate_of dictionary.now f.now groups (n, a.now)) w.old w.new b) }
{
    let value = argument(alloc, w, dictionary, f, &a.argument)?;
    let x = aggregated(alloc, w, f, a.kind, &value)?;
    let p = aggregate_path(alloc, n)?;
    let out = out(alloc)?;
    let op = with_attribute(alloc, &groups.vector, &p, &x, &out)?;
    let vector = w.make("groups", op)?;
    groups.with_aggregate(vector, n, p)
}

/// The aggregates, one by one.
fn aggregates_of(
    alloc: Global,
    w: &mut Writer,
    dictionary: &Dictionary,
    f: &Folding,
    groups: Base,
    aggregates: &[Aggregate],
) -> Result<Base, NoMemory>
    ensures { IfOk result (λ b. Adds (through (spec.aggregate_of dictionary.now f.now) groups (enumerate_from 0 aggregates.now)) w.old w.new b) }
{
    let mut groups = groups;
    for n in 0..aggregates.len() {
        groups = aggregate_of(alloc, w, dictionary, f, groups, n, &aggregates[n])?;
    }
    Ok(groups)
}

/// The groups of rows, with the values of their group columns and of their aggregates.
pub fn grouped(
    alloc: Global,
    w: &mut Writer,
    dictionary: &Dictionary,
    b: Base,
    columns: &[ColumnRef],
    aggregates: &[Aggregate],
) -> Result<Base, NoMemory>
    ensures { IfOk result (λ c. Adds (spec.grouped dictionary.now b columns.now aggregates.now) w.old w.new c) }
{
    let f = folding_of(alloc, w, b, columns)?;
    let groups = f.groups.copied(alloc)?;
    aggregates_of(alloc, w, dictionary, &f, groups, aggregates)
}
