//! Lists of paths in their order.

ghost use Rattle.std.specs.Prelude.{◌≡◌, not, All, IfOk};
ghost use Rattle.key_paths.specs.Paths.{IsPath};
ghost use Rattle.std.specs.List.{list_any};
ghost use Rattle.key_paths.specs.Substructures.{is_before, is_root};
ghost use Rattle.programs.specs.Faults.{all_apart};
ghost use Rattle.programs.specs.Merges.{LeavesSome, TakesSecond, merged};
ghost use Rattle.programs.specs.Moves.{others};
ghost use Rattle.programs.specs.Orders.{Rises};

use crate::NoMemory;
use key_paths::Path;
use std::alloc::Global;

/// The same paths again.
pub(crate) fn copied_paths(alloc: Global, paths: &[Path]) -> Result<Vec<Path>, NoMemory>
    ensures { IfOk result (λ copies. copies.items ≡ paths.now) }
{
    let mut copies = Vec::with_capacity(alloc, paths.len())?;
    for path in paths {
        copies.push(path.copied(alloc)?)?;
    }
    Ok(copies)
}

/// The paths that are neither `p` nor below it.
pub(crate) fn other_paths(alloc: Global, paths: &[Path], p: &Path) -> Result<Vec<Path>, NoMemory>
    ensures { IfOk result (λ rest. rest.items ≡ others p.now paths.now) }
{
    let mut rest = Vec::new(alloc);
    for path in paths {
        if !path.starts_with(p) {
            rest.push(path.copied(alloc)?)?;
        }
    }
    Ok(rest)
}

/// The paths of two ascending lists as one.
pub(crate) fn merged_paths(alloc: Global, a: &[Path], b: &[Path]) -> Result<Vec<Path>, NoMemory>
    ensures { IfOk result (λ paths. paths.items ≡ merged is_before a.now b.now) }
{
    let mut paths = Vec::new(alloc);
    let mut i = 0;
    let mut j = 0;
    while i < a.len() || j < b.len() {
        if takes_second(a, i, b, j) {
            paths.push(b[j].copied(alloc)?)?;
            j += 1;
        } else {
            paths.push(a[i].copied(alloc)?)?;
            i += 1;
        }
    }
    Ok(paths)
}

/// Whether the second of two ascending lists has the first of the paths that are left, from place `i`
/// of the first list and place `j` of the second; of equal paths the first list's comes first.
pub fn takes_second(a: &[Path], i: usize, b: &[Path], j: usize) -> bool
    requires { LeavesSome i a.now j b.now }
    ensures { TakesSecond i a.now j b.now result }
{
    j < b.len() && (i >= a.len() || b[j] < a[i])
}

/// Whether a path is the root.
pub(crate) fn has_root(paths: &[Path]) -> bool
    ensures { result ≡ list_any is_root paths.now }
{
    paths.iter().any(|p| p.is_root())
}

/// Whether two paths are equal or nested. In a list that ascends it is enough to look at neighbours.
pub(crate) fn has_nested(paths: &[Path]) -> bool
    requires ascending { Rises paths.now }
    requires paths { All IsPath paths.now }
    ensures { result ≡ not (all_apart paths.now) }
{
    for i in 1..paths.len() {
        if paths[i].starts_with(&paths[i - 1]) {
            return true;
        }
    }
    false
}
