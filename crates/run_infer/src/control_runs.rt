//! The runs of a control vector's values.
ghost use Rattle.std.specs.Prelude.{◌≡◌, ◌<◌, ◌≤◌, ◌^◌};
ghost use Rattle.run_infer.specs.Inferred.{HasRuns, begins_at, list_of};

use crate::inferring::{Runs, infer};
use crate::marks::RunMarks;
use control_vectors::ControlVector;
use std::marker::Model;

/// The runs of so many values of a control vector.
#[derive(Drop)]
pub struct ControlRuns {
    control: ControlVector,
    runs: Runs,
    len: u32,
}

impl Model for ControlRuns {
    ghost use Rattle.std.specs.Prelude.{◌≤◌, ◌^◌};
    ghost use Rattle.run_infer.specs.Inferred.{ControlListed, HasRuns, list_of};

    ghost Value = { ControlListed };

    ghost view = { λ r. list_of r.control r.len };

    ghost invariant = { λ r. (r.len ≤ 2 ^ 22) × HasRuns r.control r.runs };
}

impl ControlRuns {
    /// The runs of the values of `v` at places 0 to `n` - 1.
    pub fn new(v: ControlVector, n: u32) -> ControlRuns
        requires { n ≤ 2 ^ 22 }
        ensures { result ≡ list_of v n }
    {
        ControlRuns {
            control: v,
            runs: infer(&v),
            len: n,
        }
    }
}

/// Where the runs follow from the four numbers, no value is looked at.
impl RunMarks for ControlRuns {
    ghost use Rattle.control_vectors.specs.Runs.{run_marks};
    ghost use Rattle.run_infer.specs.Inferred.{tuples_of};

    ghost marks = { λ r. run_marks (tuples_of r.control r.length) };

    fn len(&self) -> u32 {
        self.len
    }

    fn starts(&self, i: u32) -> bool {
        starts_at(&self.control, self.runs, i)
    }
}

/// Whether a run of a control vector's values begins at a place.
fn starts_at(v: &ControlVector, runs: Runs, i: u32) -> bool
    requires { HasRuns v.now runs }
    ensures { result ≡ begins_at v.now i }
{
    match runs {
        Runs::One => i == 0,
        Runs::Uniform(length) => i % length == 0,
        Runs::ByValue => i == 0 || v.at(i) != v.at(i - 1),
    }
}
