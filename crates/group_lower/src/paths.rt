//! The paths of the attributes that parts make.

ghost use Rattle.std.specs.Prelude.{◌≡◌, IfOk, codes};
ghost use Rattle.plan_programs.specs.Groups as groups;

use io_edge::NoMemory;
use key_paths::Path;
use program_writers::paths::numbered;
use std::alloc::Global;

/// The path of the j-th group column, where it makes runs.
pub fn run_path(alloc: Global, j: usize) -> Result<Path, NoMemory>
    ensures { IfOk result (λ p. p ≡ groups.run_path j) }
{
    numbered(alloc, ".run.g", j)
}

/// The path of a group's value in the j-th group column.
pub fn key_path(alloc: Global, j: usize) -> Result<Path, NoMemory>
    ensures { IfOk result (λ p. p ≡ groups.key_path j) }
{
    numbered(alloc, ".k", j)
}

/// The path of an aggregate, by its place in the plan's list.
pub fn aggregate_path(alloc: Global, n: usize) -> Result<Path, NoMemory>
    ensures { IfOk result (λ p. p ≡ groups.aggregate_path n) }
{
    numbered(alloc, ".a", n)
}

/// The path of the mark, where it makes runs.
pub fn run_mark_path(alloc: Global) -> Result<Path, NoMemory>
    ensures { IfOk result (λ p. p ≡ codes ".run.mark") }
{
    Path::of(alloc, ".run.mark")
}
