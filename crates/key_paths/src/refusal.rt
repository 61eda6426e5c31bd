//! Why a text is no path.
ghost use Rattle.std.specs.Prelude.{◌≡◌};
ghost use Rattle.key_paths.specs.declared.refusal.PathRefusal.TheVariants.{NoMemory};

use std::alloc::AllocError;
use thiserror::Error;

/// What is wrong at a byte of a text that is no path.
#[derive(Clone, Copy, Debug, Error)]
pub enum PathKind {
    /// The text does not begin with a dot.
    #[error("a path begins with a dot")]
    NoDot,
    /// A dot, or the end of a text other than `.`, stands where a segment must begin.
    #[error("a segment is empty")]
    EmptySegment,
    /// The 65th byte of a segment.
    #[error("a segment is longer than 64 bytes")]
    SegmentTooLong,
    /// The dot before a ninth segment.
    #[error("a path has more than 8 segments")]
    TooDeep,
    /// Any other byte that may not stand there.
    #[error("a segment has letters, digits and _ alone, and no digit first")]
    BadByte,
}

/// Why `Path::read` made no path.
#[derive(Debug, Drop, Error)]
pub enum PathRefusal {
    /// The text is no path. `at` is the first byte at which it stops being the beginning of one, or
    /// its length.
    #[error("byte {at}: {kind}")]
    Bad { at: u32, kind: PathKind },
    /// Memory ran out.
    #[error("out of memory")]
    NoMemory,
}

impl From<AllocError> for PathRefusal {
    ghost from_gives = { λ _ refusal. refusal ≡ NoMemory };

    fn from(_error: AllocError) -> PathRefusal {
        PathRefusal::NoMemory
    }
}
