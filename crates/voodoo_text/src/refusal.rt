//! Why a text is refused.

use std::alloc::AllocError;
use thiserror::Error;

/// What is wrong with a line.
#[derive(Clone, Copy, Debug, PartialEq, Eq, Error)]
pub enum TextKind {
    /// The text is not UTF-8. Said of line 1.
    #[error("the text is not UTF-8")]
    NotText,
    /// A character that begins no token, a name of more than 64 bytes, or a path of more than 8
    /// segments or with one of more than 64 bytes.
    #[error("what stands there is no token")]
    BadToken,
    /// A token with which the line cannot go on, or its end where more must follow.
    #[error("the line cannot go on so")]
    Unexpected,
    /// A number that its place does not hold.
    #[error("a number is out of range")]
    BadNumber,
    /// A Range whose four numbers are no control vector.
    #[error("a control vector is not admissible")]
    NotAdmissible,
}

/// Why `read_program` read no program.
#[derive(Clone, Copy, Debug, Drop, Error)]
pub enum TextRefusal {
    /// The first line that is refused, counted from 1, and the first thing that is wrong with it.
    #[error("line {line}: {kind}")]
    Bad { line: u32, kind: TextKind },
    /// Memory ran out.
    #[error("out of memory")]
    NoMemory,
}

impl From<AllocError> for TextRefusal {
    ghost use Rattle.std.specs.Prelude.{◌≡◌};
    ghost use Rattle.voodoo_text.specs.declared.refusal.TextRefusal.TheVariants.{NoMemory};

    ghost from_gives = { λ _ refusal. refusal ≡ NoMemory };

    fn from(_error: AllocError) -> TextRefusal {
        TextRefusal::NoMemory
    }
}
