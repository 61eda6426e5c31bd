//! Operators that work slot by slot.

ghost use Rattle.slot_columns.specs.Stops.{Exact};
ghost use Rattle.programs.specs.Vectors.{seen};
ghost use Rattle.voodoo_ops.specs.Envs.{env_in};
ghost use Rattle.voodoo_ops.specs.Reading.{CanPair, HasOperand, IsNamed};
ghost use Rattle.voodoo_ops.specs.Slotwise.{paired, shifted};

use crate::made::Made;
use crate::reading::operand;
use crate::single::named_if_made;
use control_vectors::PairKind;
use held_vectors::HeldVector;
use key_paths::Path;
use programs::{Operand, PairArgs};
use slot_columns::Stop;
use slot_wise::{common_len, pairs, shifts};
use std::alloc::Global;

/// The vector that a slot-wise operator makes of two operands.
pub(crate) fn pair_made(
    alloc: Global,
    made: &Made,
    kind: PairKind,
    args: &PairArgs,
) -> Result<HeldVector, Stop>
    requires { CanPair (env_in made.now) args.now }
    ensures { Exact seen result (paired kind (env_in made.now) args.now) }
{
    let x = operand(made, &args.x);
    let y = operand(made, &args.y);
    named_if_made(alloc, &args.out, pairs(alloc, kind, x, y, common_len(x, y)))
}

/// The vector that BitShift makes of an operand.
pub(crate) fn shift_made(
    alloc: Global,
    made: &Made,
    x: &Operand,
    by: i32,
    out: &Path,
) -> Result<HeldVector, Stop>
    requires x { HasOperand (env_in made.now) x.now }
    requires named { IsNamed out.now }
    ensures { Exact seen result (shifted (env_in made.now) x.now by out.now) }
{
    let source = operand(made, x);
    let n = common_len(source, source);
    let column = shifts(alloc, source, by, n);
    named_if_made(alloc, out, column)
}
