//! The paths that parts read and make.

ghost use Rattle.std.specs.Prelude.{◌≡◌, ◌≤◌, ◌++◌, false, length, IfOk};
ghost use Rattle.std.specs.Fmt.{decimal};
ghost use Rattle.key_paths.specs.Paths.{IsPath};
ghost use Rattle.key_paths.specs.Substructures.{is_root};
ghost use Rattle.program_writers.specs.Statements as spec;

use io_edge::NoMemory;
use key_paths::Path;
use std::alloc::Global;

/// What an operator makes.
// The proof is named here: a folder of proofs named `out` would pass for build output.
#[tactic(auto, using(crate::proofs::Routes::path_out))]
pub fn out(alloc: Global) -> Result<Path, NoMemory>
    ensures { IfOk result (λ p. p ≡ spec.out) }
{
    Path::of(alloc, ".out")
}

/// Nonempty where a row or a group stands.
pub fn mark(alloc: Global) -> Result<Path, NoMemory>
    ensures { IfOk result (λ p. p ≡ spec.mark) }
{
    Path::of(alloc, ".mark")
}

/// The values of a fold.
pub fn val(alloc: Global) -> Result<Path, NoMemory>
    ensures { IfOk result (λ p. p ≡ spec.val) }
{
    Path::of(alloc, ".val")
}

/// The runs of a fold.
pub fn run(alloc: Global) -> Result<Path, NoMemory>
    ensures { IfOk result (λ p. p ≡ spec.run) }
{
    Path::of(alloc, ".run")
}

/// A path with a number behind it, as `.v3`.
pub fn numbered(alloc: Global, word: &str, k: usize) -> Result<Path, NoMemory>
    requires path { IsPath word.now }
    requires below_root { is_root word.now ≡ false }
    requires short { length word.now ≤ 40 }
    ensures { IfOk result (λ p. p ≡ word.now ++ decimal k) }
{
    let text = format!(in alloc; "{word}{k}")?;
    Path::of(alloc, text.as_str())
}
