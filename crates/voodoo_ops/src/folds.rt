//! Folds over the runs of what stands at or below a path.

ghost use Rattle.std.specs.Prelude.{Ok};
ghost use Rattle.slot_columns.specs.Stops.{Exact};
ghost use Rattle.programs.specs.Vectors.{known, seen};
ghost use Rattle.voodoo_ops.specs.Envs.{env_in};
ghost use Rattle.voodoo_ops.specs.Folds.{fold, fold_scan, fold_select, folded_by};
ghost use Rattle.voodoo_ops.specs.Reading.{CanFold};

use crate::made::Made;
use crate::reading::{attribute, vector};
use crate::run_marks::marks_of;
use crate::single::named_if_made;
use control_vectors::FoldKind;
use held_vectors::HeldVector;
use programs::{FoldArgs, FoldOperator};
use slot_columns::Stop;
use slot_folds::{fold_runs, scan_runs, select_runs};
use std::alloc::Global;

/// The vector that a fold makes.
pub(crate) fn fold_made(
    alloc: Global,
    made: &Made,
    kind: FoldOperator,
    args: &FoldArgs,
) -> Result<HeldVector, Stop>
    requires { CanFold (env_in made.now) args.now }
    ensures { Exact seen result (folded_by kind (known ((env_in made.now) args.now.a)) args.now) }
{
    match kind {
        FoldOperator::Sum => number_made(alloc, made, FoldKind::Sum, args),
        FoldOperator::Min => number_made(alloc, made, FoldKind::Min, args),
        FoldOperator::Max => number_made(alloc, made, FoldKind::Max, args),
        FoldOperator::Select => select_made(alloc, made, args),
        FoldOperator::Scan => scan_made(alloc, made, args),
    }
}

/// The vector that FoldSum, FoldMin or FoldMax makes.
fn number_made(
    alloc: Global,
    made: &Made,
    kind: FoldKind,
    args: &FoldArgs,
) -> Result<HeldVector, Stop>
    requires { CanFold (env_in made.now) args.now }
    ensures { Exact seen result (fold kind (known ((env_in made.now) args.now.a)) args.now) }
{
    let marks = marks_of(alloc, vector(made, &args.a), &args.run)?;
    let values = attribute(made, &args.a, &args.val);
    named_if_made(
        alloc,
        &args.out,
        fold_runs(alloc, kind, marks.as_slice(), values),
    )
}

/// The vector that FoldSelect makes.
fn select_made(alloc: Global, made: &Made, args: &FoldArgs) -> Result<HeldVector, Stop>
    requires { CanFold (env_in made.now) args.now }
    ensures { Exact seen result (Ok (fold_select (known ((env_in made.now) args.now.a)) args.now)) }
{
    let marks = marks_of(alloc, vector(made, &args.a), &args.run)?;
    let values = attribute(made, &args.a, &args.val);
    named_if_made(
        alloc,
        &args.out,
        select_runs(alloc, marks.as_slice(), values),
    )
}

/// The vector that FoldScan makes.
fn scan_made(alloc: Global, made: &Made, args: &FoldArgs) -> Result<HeldVector, Stop>
    requires { CanFold (env_in made.now) args.now }
    ensures { Exact seen result (fold_scan (known ((env_in made.now) args.now.a)) args.now) }
{
    let marks = marks_of(alloc, vector(made, &args.a), &args.run)?;
    let values = attribute(made, &args.a, &args.val);
    named_if_made(alloc, &args.out, scan_runs(alloc, marks.as_slice(), values))
}
