//! Where a run writes.

ghost use Rattle.std.specs.Prelude.{◌≡◌, ◌≤◌, ◌<◌, ℕ, List, Option, IfOk, length};
ghost use Rattle.std.specs.Io.KnownBytes.{WriteAppends};
ghost use Rattle.io_edge.specs.Faults.{HasCause};

use crate::Failed;

/// A sink of bytes.
///
/// What was written is optional: a sink over a stream tells nothing, and clauses on content then
/// say nothing. Its count of faults never falls.
pub trait Sink {
    /// All bytes written so far, where the sink tells them.
    ghost written: { Self → Option (List ℕ) };

    /// How often the outside failed: at most 2^64 - 1, where it stands still.
    ghost faults: { Self → ℕ };

    /// Writes the first bytes of `piece`, and says how many: at least one of a piece that isn't
    /// empty. Taking none of it is a fault.
    fn write(&mut self, piece: &[u8]) -> Result<usize, Failed>
        ensures bound { IfOk result (λ k. k ≤ length piece.now) }
        ensures some { IfOk result (λ k. 0 < length piece.now → 0 < k) }
        ensures bytes { WriteAppends (written self.old) (written self.new) result piece.now }
        ensures cause { HasCause (faults self.old) (faults self.new) result };
}
