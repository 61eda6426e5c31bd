//! The stretch of an ascending list of paths that stands at or below a path.
ghost use Rattle.std.specs.Prelude.{◌≡◌, ◌+◌, ◌≤◌, ◌<◌, ◌^◌, length, slice_range};
ghost use Rattle.std.specs.List.{filter, count_by};
ghost use Rattle.key_paths.specs.Substructures.{is_at_or_below, is_before, IsAscending};

use crate::Path;

/// A stretch of a list of paths: the places from `from` up to but not including `to`.
#[derive(Clone, Copy)]
pub struct PathRange {
    pub from: u32,
    pub to: u32,
}

impl PathRange {
    /// The stretch of the paths at or below `prefix`. Where there are none, it is empty and stands
    /// where they would.
    pub fn of(paths: &[Path], prefix: &Path) -> PathRange
        requires ascending { IsAscending paths.now }
        requires few { length paths.now < 2 ^ 32 }
        ensures stretch { slice_range paths.now result.from result.to
            ≡ filter (λ p. is_at_or_below p prefix.now) paths.now }
        ensures from { result.from ≡ count_by (λ p. is_before p prefix.now) paths.now }
        ensures order { result.from ≤ result.to }
        ensures within { result.to ≤ length paths.now }
    {
        let mut from = 0u32;
        let mut count = 0u32;
        for path in paths {
            if path.starts_with(prefix) {
                count += 1;
            } else if path < prefix {
                from += 1;
            }
        }
        PathRange {
            from,
            to: from + count,
        }
    }
}
