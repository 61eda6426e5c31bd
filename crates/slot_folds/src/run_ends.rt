//! Where runs end.
ghost use Rattle.std.specs.Prelude.{◌≡◌, ◌+◌, ◌<◌, ◌≤◌, length, drop};
ghost use Rattle.slot_folds.specs.Jobs.{unmarked};

/// The place behind the run that begins at a place: the next mark's, or the end.
pub(crate) fn run_end(marks: &[bool], from: usize) -> usize
    requires { from < length marks.now }
    ensures end { result ≡ from + 1 + unmarked (drop (from + 1) marks.now) }
    ensures within { result ≤ length marks.now }
{
    let mut to = from + 1;
    while to < marks.len() && !marks[to] {
        to += 1;
    }
    to
}
