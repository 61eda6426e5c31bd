//! The operators that parts are written with.

ghost use Rattle.std.specs.Prelude.{◌≡◌, IfOk};
ghost use Rattle.programs.specs.declared.op.Op.TheVariants as op;
ghost use Rattle.program_writers.specs.Statements as spec;

use crate::paths::{out, run, val};
use control_vectors::{ControlVector, PairKind};
use io_edge::{Name, NoMemory};
use key_paths::Path;
use programs::{FoldArgs, FoldOperator, Op, Operand, OrderKeys, PairArgs, Size};
use std::alloc::Global;

/// An attribute of a vector.
pub fn attribute(alloc: Global, a: &Name, p: &Path) -> Result<Operand, NoMemory>
    ensures { IfOk result (λ x. x ≡ spec.attribute a.now p.now) }
{
    Ok(Operand::Column(a.copied(alloc)?, p.copied(alloc)?))
}

/// An operator of two operands.
pub fn pair(alloc: Global, kind: PairKind, x: Operand, y: Operand) -> Result<Op, NoMemory>
    ensures { IfOk result (λ o. o ≡ spec.pair kind x y) }
{
    let out = out(alloc)?;
    Ok(Op::of_pair(kind, PairArgs { x, y, out }))
}

/// An attribute more, or another in its place.
pub fn with_attribute(alloc: Global, a: &Name, p: &Path, b: &Name, q: &Path) -> Result<Op, NoMemory>
    ensures { IfOk result (λ o. o ≡ spec.with_attribute a.now p.now b.now q.now) }
{
    Ok(Op::Upsert {
        a: a.copied(alloc)?,
        p: p.copied(alloc)?,
        b: b.copied(alloc)?,
        q: q.copied(alloc)?,
    })
}

/// The values of a vector in its runs.
pub fn fold_args(alloc: Global, a: &Name) -> Result<FoldArgs, NoMemory>
    ensures { IfOk result (λ f. f ≡ spec.fold_args a.now) }
{
    Ok(FoldArgs {
        a: a.copied(alloc)?,
        val: val(alloc)?,
        run: run(alloc)?,
        out: out(alloc)?,
    })
}

/// A fold of the values of a vector in its runs.
pub fn fold_of(alloc: Global, kind: FoldOperator, a: &Name) -> Result<Op, NoMemory>
    ensures { IfOk result (λ o. o ≡ spec.fold_of kind (spec.fold_args a.now)) }
{
    let args = fold_args(alloc, a)?;
    Ok(Op::of_fold(kind, args))
}

/// The attributes of one vector at the places that another holds.
pub fn at_places(alloc: Global, a: &Name, places: &Name) -> Result<Op, NoMemory>
    ensures { IfOk result (λ o. o ≡ spec.at_places a.now places.now) }
{
    Ok(Op::Gather {
        a: a.copied(alloc)?,
        b: places.copied(alloc)?,
        pos: out(alloc)?,
    })
}

/// A table.
pub fn load(alloc: Global, table: &str) -> Result<Op, NoMemory>
    ensures { IfOk result (λ o. o ≡ op.Load table.now) }
{
    Ok(Op::Load {
        table: Name::of(alloc, table)?,
    })
}

/// Numbers, as many as a size says.
pub fn range(alloc: Global, size: Size, p: &Path, control: ControlVector) -> Result<Op, NoMemory>
    ensures { IfOk result (λ o. o ≡ op.Range size p.now control) }
{
    Ok(Op::Range {
        size,
        out: p.copied(alloc)?,
        control,
    })
}

/// What stands at or below one path, at or below another.
pub fn project(alloc: Global, a: &Name, p: &Path, q: &Path) -> Result<Op, NoMemory>
    ensures { IfOk result (λ o. o ≡ op.Project a.now p.now q.now) }
{
    Ok(Op::Project {
        a: a.copied(alloc)?,
        p: p.copied(alloc)?,
        q: q.copied(alloc)?,
    })
}

/// The marked places in the order of some keys.
pub fn order(alloc: Global, a: &Name, mark: &Path, keys: OrderKeys) -> Result<Op, NoMemory>
    ensures { IfOk result (λ o. o ≡ op.Order a.now mark.now spec.out keys) }
{
    Ok(Op::Order {
        a: a.copied(alloc)?,
        mark: mark.copied(alloc)?,
        out: out(alloc)?,
        keys,
    })
}

/// A result.
pub fn persist(alloc: Global, a: &Name) -> Result<Op, NoMemory>
    ensures { IfOk result (λ o. o ≡ op.Persist a.now) }
{
    Ok(Op::Persist {
        a: a.copied(alloc)?,
    })
}
