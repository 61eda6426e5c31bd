//! Vectors of one attribute.

ghost use Rattle.std.specs.Prelude.{◌≡◌, ℕ, List, length, IfOk, Result};
ghost use Rattle.control_vectors.specs.Slots.{Slot};
ghost use Rattle.control_vectors.specs.declared.Over.{Over};
ghost use Rattle.slot_columns.specs.Stops.{Exact};
ghost use Rattle.programs.specs.Vectors.{column, column_of, seen};
ghost use Rattle.voodoo_ops.specs.Reading.{IsNamed};
ghost use Rattle.voodoo_ops.specs.Stops.{HaveLength};

use crate::NoMemory;
use held_vectors::HeldVector;
use key_paths::Path;
use slot_columns::Stop;
use std::alloc::Global;
use struct_vectors::Column;

/// The vector of one attribute.
pub(crate) fn named(alloc: Global, out: &Path, slots: Column) -> Result<HeldVector, NoMemory>
    requires { IsNamed out.now }
    ensures { IfOk result (λ v. seen v ≡ column out.now (length slots.slots) slots.slots) }
{
    let v = HeldVector::of_column(alloc, out.copied(alloc)?, slots)?;
    Ok(v)
}

/// The vector of one attribute, where its column was made.
pub(crate) fn named_if_made(
    alloc: Global,
    out: &Path,
    slots: Result<Column, Stop>,
) -> Result<HeldVector, Stop>
    requires { IsNamed out.now }
    ensures { (n : ℕ) (meant : Result (List Slot) Over) → Exact (λ c. c.slots) slots meant → HaveLength n meant
        → Exact seen result (column_of out.now n meant) }
{
    match slots {
        Ok(column) => Ok(named(alloc, out, column)?),
        Err(stop) => Err(stop),
    }
}
