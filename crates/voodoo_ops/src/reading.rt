//! The vectors and attributes that an operator reads.

ghost use Rattle.std.specs.Prelude.{◌≡◌, ◌≤◌, ◌^◌, true, is_some, length};
ghost use Rattle.struct_vectors.specs.Vectors.{IsShaped};
ghost use Rattle.programs.specs.Vectors.{known, seen, slots_of};
ghost use Rattle.voodoo_ops.specs.Envs.{env_in};
ghost use Rattle.voodoo_ops.specs.Meaning.{size_of};
ghost use Rattle.voodoo_ops.specs.Reading.{HasAttribute, HasOperand, Reads};

use crate::made::Made;
use held_vectors::HeldVector;
use io_edge::Name;
use key_paths::Path;
use programs::{Operand, Size};
use slot_wise::Source;
use struct_vectors::Column;

/// The vector of a name.
pub(crate) fn vector<'a>(made: &'a Made, a: &Name) -> &'a HeldVector
    requires { is_some ((env_in made.now) a.now) ≡ true }
    ensures vector { seen result.now ≡ known ((env_in made.now) a.now) }
    ensures shaped { IsShaped result.now }
{
    match made.vector(a) {
        Some(v) => {
            let _len = v.len();
            v
        }
        None => unreachable!(),
    }
}

/// The attribute at a path of the vector of a name.
pub(crate) fn attribute<'a>(made: &'a Made, a: &Name, p: &Path) -> &'a Column
    requires { HasAttribute (env_in made.now) a.now p.now }
    ensures slots { result.now.slots ≡ slots_of (known ((env_in made.now) a.now)).attributes p.now }
    ensures len { length result.now.slots ≡ (known ((env_in made.now) a.now)).len }
    ensures bounded { length result.now.slots ≤ 2 ^ 22 }
{
    match vector(made, a).column(p) {
        Some(column) => {
            let _len = column.len();
            column
        }
        None => unreachable!(),
    }
}

/// What an operand gives.
pub(crate) fn operand<'a>(made: &'a Made, x: &Operand) -> Source<'a>
    requires { HasOperand (env_in made.now) x.now }
    ensures { Reads (env_in made.now) x.now result }
{
    match x {
        Operand::Number(z) => Source::Number(*z),
        Operand::Column(a, p) => Source::Column(attribute(made, a, p)),
    }
}

/// A size as a number of slots.
pub(crate) fn size_in(made: &Made, size: &Size) -> u32
    ensures { result ≡ size_of (env_in made.now) size.now }
{
    match size {
        Size::Number(n) => *n,
        Size::Of(a) => match made.vector(a) {
            Some(v) => v.len(),
            None => 0,
        },
    }
}
