//! Why an evaluation stops early.

ghost use Rattle.std.specs.Prelude.{◌≡◌};

use control_vectors::Over;
use std::alloc::AllocError;

/// Why an evaluation stops early.
#[derive(Clone, Copy, Debug, PartialEq, Eq)]
pub enum Stop {
    /// Memory ran out.
    NoMemory,
    /// A number leaves 128 bits.
    Overflow,
}

impl From<AllocError> for Stop {
    ghost use Rattle.slot_columns.specs.declared.stop.Stop.{Stop};

    ghost from_gives = { λ _ stop. stop ≡ Stop.NoMemory };

    fn from(_: AllocError) -> Stop {
        Stop::NoMemory
    }
}

impl From<Over> for Stop {
    ghost use Rattle.slot_columns.specs.declared.stop.Stop.{Stop};

    ghost from_gives = { λ _ stop. stop ≡ Stop.Overflow };

    fn from(_: Over) -> Stop {
        Stop::Overflow
    }
}
