//! What tells where runs begin.
ghost use Rattle.std.specs.Prelude.{◌≡◌, ◌<◌, Bool, List, Some, length, slice_get};
ghost use Rattle.run_infer.specs.Marks.{AreMarks};

/// Where the runs of a list of at most 2^22 places begin. The first place begins one.
pub trait RunMarks {
    /// For each place, whether a run begins there.
    ghost marks: { Self → List Bool };

    /// How many places there are.
    fn len(&self) -> u32
        ensures len { result ≡ length (marks self.now) }
        ensures marks { AreMarks (marks self.now) };

    /// Whether a run begins at place `i`.
    fn starts(&self, i: u32) -> bool
        requires { i < length (marks self.now) }
        ensures start { slice_get (marks self.now) i ≡ Some result }
        ensures marks { AreMarks (marks self.now) };
}
