//! The runs of columns that stand side by side.
ghost use Rattle.std.specs.Prelude.{◌≡◌, ◌<◌, ◌≤◌, ◌^◌, ◌||◌, length, map};
ghost use Rattle.std.specs.List.{All, list_any};
ghost use Rattle.control_vectors.specs.Runs.{differs};
ghost use Rattle.run_infer.specs.Tuples.{HaveLength, parts_of};

use crate::marks::RunMarks;
use std::marker::Model;
use struct_vectors::Column;

/// The runs of tuples: at each place, the tuple of the slots that some columns have there. An empty slot equals an empty one.
#[derive(Drop)]
pub struct TupleRuns<'a> {
    parts: &'a [Column],
    len: u32,
}

impl<'a> Model for TupleRuns<'a> {
    ghost use Rattle.std.specs.Prelude.{◌≤◌, ◌^◌};
    ghost use Rattle.run_infer.specs.Tuples.{HaveLength, PartsListed, parts_of};

    ghost Value = { PartsListed };

    ghost view = { λ r. parts_of r.parts.now r.len };

    ghost invariant = { λ r. (r.len ≤ 2 ^ 22) × HaveLength r.len r.parts.now };
}

impl<'a> TupleRuns<'a> {
    /// The runs of the tuples of `parts` at places 0 to `n` - 1. No parts give one run, or none where `n` is 0.
    pub fn new(parts: &'a [Column], n: u32) -> TupleRuns<'a>
        requires few { n ≤ 2 ^ 22 }
        requires lengths { HaveLength n parts.now }
        ensures { result ≡ parts_of parts.now n }
    {
        TupleRuns { parts, len: n }
    }
}

/// A place begins a run where some part's slot differs from the one before.
impl RunMarks for TupleRuns<'_> {
    ghost use Rattle.control_vectors.specs.Runs.{run_marks, side_by_side};

    ghost marks = { λ r. run_marks (side_by_side r.length r.parts) };

    fn len(&self) -> u32 {
        self.len
    }

    fn starts(&self, i: u32) -> bool {
        i == 0 || some_differs(self.parts, i)
    }
}

/// Whether some part's slot differs at a place from the place before.
fn some_differs(parts: &[Column], i: u32) -> bool
    requires from { 1 ≤ i }
    requires within { All (λ part. i < length part.slots) parts.now }
    ensures { result ≡ list_any (λ part. differs part.slots i) parts.now }
{
    for part in parts {
        if part.get(i) != part.get(i - 1) {
            return true;
        }
    }
    false
}
