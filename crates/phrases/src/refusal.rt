//! Why reading stopped.

use std::alloc::AllocError;

/// Reading stopped for want of memory, or at a token that cannot stand where it does.
#[derive(Clone, Copy, Drop)]
pub enum ReadError<F> {
    /// Memory was refused.
    NoMemory,
    /// The fault of the refused token, and the number of tokens from it on: 0 at the end of the text.
    Refused(F, usize),
}

impl<F> From<AllocError> for ReadError<F> {
    ghost use Rattle.std.specs.Prelude.{◌≡◌};
    ghost use Rattle.phrases.specs.declared.refusal.ReadError.TheVariants.{NoMemory};

    ghost from_gives = { λ _ e. e ≡ NoMemory };

    fn from(_error: AllocError) -> ReadError<F> {
        ReadError::NoMemory
    }
}
