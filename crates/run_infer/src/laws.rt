//! Laws of the definitions, for what stands above.

ghost use Rattle.std.specs.Prelude.{◌≡◌, ℕ, Bool, List};
ghost use Rattle.control_vectors.specs.Runs.{Tuple, run_marks, run_starts};
ghost use Rattle.run_infer.specs.Marks.{IsNextStart, starts_of};

/// The starts of the marks of tuples are the places at which the runs of these tuples begin.
pub fn starts_law()
    ensures { (tuples : List Tuple) → starts_of (run_marks tuples) ≡ run_starts tuples }
{}

/// There is one next start.
pub fn next_law()
    ensures { (marks : List Bool) (after m n : ℕ) → IsNextStart marks after m → IsNextStart marks after n → m ≡ n }
{}
