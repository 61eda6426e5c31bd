//! The paths of the attributes that parts make.

ghost use Rattle.std.specs.Prelude.{◌≡◌, IfOk};
ghost use Rattle.plan_programs.specs.Rows as rows;

use io_edge::NoMemory;
use key_paths::{Path, is_path};
use program_writers::paths::{numbered, out};
use std::alloc::Global;

/// A text that is a path, or `.out` in place of one that is none.
pub fn named_path(alloc: Global, text: &str) -> Result<Path, NoMemory>
    ensures { IfOk result (λ p. p ≡ rows.named_path text.now) }
{
    if text.len() < 1 << 32 && is_path(text.as_bytes()) {
        Path::of(alloc, text)
    } else {
        out(alloc)
    }
}

/// The path of the k-th column that is asked for.
pub fn value_path(alloc: Global, k: usize) -> Result<Path, NoMemory>
    ensures { IfOk result (λ p. p ≡ rows.value_path k) }
{
    numbered(alloc, ".v", k)
}
