//! Vectors that are handed on: taken where nothing later reads them, else copied.

ghost use Rattle.std.specs.Prelude.{◌≡◌, true, false, is_some, IfOk, IfSome, IfNone, OnOk};
ghost use Rattle.programs.specs.Vectors.{known, seen};
ghost use Rattle.voodoo_ops.specs.Envs.{env_in};
ghost use Rattle.voodoo_ops.specs.Later.{Keeps, LeavesOthers, reads};

use crate::NoMemory;
use crate::later::Later;
use crate::made::Made;
use crate::reading::vector;
use held_vectors::HeldVector;
use io_edge::Name;
use last_readers::Mentions;
use std::alloc::Global;

/// The vector of a name, taken out where nothing later reads it.
pub(crate) fn taken(made: &mut Made, a: &Name, later: Later) -> Option<HeldVector>
    requires { is_some ((env_in made.old) a.now) ≡ true }
    ensures vector { IfSome result (λ v. seen v ≡ known ((env_in made.old) a.now)) }
    ensures last { IfSome result (λ v. reads later.entry a.now ≡ false) }
    ensures others { LeavesOthers a.now (env_in made.old) (env_in made.new) }
    ensures same { IfNone result (env_in made.new ≡ env_in made.old) }
    ensures kept { Keeps later.entry (env_in made.old) (env_in made.new) }
{
    if later.reads(a) { None } else { made.take(a) }
}

/// The vector of a name.
pub(crate) fn handed_on(
    alloc: Global,
    made: &mut Made,
    a: &Name,
    later: Later,
) -> Result<HeldVector, NoMemory>
    requires { is_some ((env_in made.old) a.now) ≡ true }
    ensures vector { IfOk result (λ v. seen v ≡ known ((env_in made.old) a.now)) }
    ensures kept { OnOk result (Keeps later.entry (env_in made.old) (env_in made.new)) }
{
    match taken(made, a, later) {
        Some(v) => Ok(v),
        None => {
            let copy = vector(made, a).copied(alloc)?;
            Ok(copy)
        }
    }
}

/// Lets go of the vectors of some names that nothing later reads.
pub(crate) fn forget(made: &mut Made, names: Mentions, later: Later)
    ensures { Keeps later.entry (env_in made.old) (env_in made.new) }
{
    forget_one(made, names.first, later);
    forget_one(made, names.second, later);
    forget_one(made, names.third, later);
}

/// Lets go of the vector of a name that nothing later reads.
fn forget_one(made: &mut Made, name: Option<&Name>, later: Later)
    ensures { Keeps later.entry (env_in made.old) (env_in made.new) }
{
    if let Some(a) = name {
        if !later.reads(a) {
            let _last = made.take(a);
        }
    }
}
