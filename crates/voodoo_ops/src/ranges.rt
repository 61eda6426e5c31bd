//! Vectors whose slots their lengths alone give.

ghost use Rattle.std.specs.Prelude.{◌≡◌, ◌*◌, ◌≤◌, ◌^◌, false, true, is_some, Ok};
ghost use Rattle.slot_columns.specs.Stops.{Exact};
ghost use Rattle.programs.specs.Faults.{path_clash};
ghost use Rattle.programs.specs.Outlines.{outline_of};
ghost use Rattle.programs.specs.Vectors.{known, seen};
ghost use Rattle.voodoo_ops.specs.Envs.{env_in};
ghost use Rattle.voodoo_ops.specs.Meaning.{size_of};
ghost use Rattle.voodoo_ops.specs.Ranges.{crossed, ranged};
ghost use Rattle.voodoo_ops.specs.Reading.{IsNamed};

use crate::made::Made;
use crate::reading::{size_in, vector};
use crate::single::named;
use crate::zip::zip;
use control_vectors::ControlVector;
use held_vectors::HeldVector;
use io_edge::Name;
use key_paths::Path;
use programs::Size;
use slot_columns::Stop;
use slot_moves::{left_column, right_column};
use std::alloc::Global;
use struct_vectors::Column;

/// The vector that Range makes: the values of a control vector, kept as its four numbers.
pub(crate) fn range_made(
    alloc: Global,
    made: &Made,
    size: &Size,
    out: &Path,
    control: ControlVector,
) -> Result<HeldVector, Stop>
    requires short { size_of (env_in made.now) size.now ≤ 2 ^ 22 }
    requires named { IsNamed out.now }
    ensures { Exact seen result (Ok (ranged (size_of (env_in made.now) size.now) out.now control)) }
{
    let n = size_in(made, size);
    Ok(named(alloc, out, Column::control(control, n))?)
}

/// The vector that Cross makes: the places of two vectors side by side, each kept as four numbers.
pub(crate) fn cross_made(
    alloc: Global,
    made: &Made,
    a: &Name,
    p: &Path,
    b: &Name,
    q: &Path,
) -> Result<HeldVector, Stop>
    requires a { is_some ((env_in made.now) a.now) ≡ true }
    requires b { is_some ((env_in made.now) b.now) ≡ true }
    requires short { (known ((env_in made.now) a.now)).len * (known ((env_in made.now) b.now)).len ≤ 2 ^ 22 }
    requires left { IsNamed p.now }
    requires right { IsNamed q.now }
    requires clear { path_clash (outline_of (crossed (known ((env_in made.now) a.now)).len p.now (known ((env_in made.now) b.now)).len q.now)) ≡ false }
    ensures { Exact seen result (Ok (crossed (known ((env_in made.now) a.now)).len p.now (known ((env_in made.now) b.now)).len q.now)) }
{
    let n = vector(made, a).len();
    let m = vector(made, b).len();
    let left = named(alloc, p, left_column(n, m))?;
    let right = named(alloc, q, right_column(n, m))?;
    Ok(zip(alloc, left, right)?)
}
