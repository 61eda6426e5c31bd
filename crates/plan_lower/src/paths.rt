//! The paths of the attributes that parts make.

ghost use Rattle.std.specs.Prelude.{◌≡◌, IfOk};
ghost use Rattle.plan_programs.specs.Items as items;

use io_edge::NoMemory;
use key_paths::Path;
use program_writers::paths::numbered;
use std::alloc::Global;

/// The path of an item, which count from 1.
pub fn item_path(alloc: Global, k: usize) -> Result<Path, NoMemory>
    ensures { IfOk result (λ p. p ≡ items.item_path k) }
{
    numbered(alloc, ".c", k)
}

/// The path of the j-th key of the order.
pub fn order_path(alloc: Global, j: usize) -> Result<Path, NoMemory>
    ensures { IfOk result (λ p. p ≡ items.order_path j) }
{
    numbered(alloc, ".key", j)
}
