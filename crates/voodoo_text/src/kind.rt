//! The kinds of tokens.

ghost use Rattle.std.specs.Prelude.{◌≡◌};
ghost use Rattle.voodoo_text.specs.Kinds as spec;

use crate::refusal::TextKind;

/// What a token is.
#[derive(Clone, Copy, PartialEq, Eq)]
pub enum Kind {
    /// A letter or `_`, then letters, digits and `_`, at most 64 bytes.
    Name,
    /// A path.
    Path,
    /// A path that directly follows a name.
    Attached,
    /// Digits, with `-` before them or without.
    Number,
    Equal,
    Open,
    Close,
    Comma,
    Plus,
    Minus,
    /// A byte that begins no token, and a name or a path past its limit.
    Bad,
}

/// Whether two kinds are one.
#[tactic(auto, unfolding(crate::specs::Kinds::same_kind))]
pub(crate) fn same_kind(a: Kind, b: Kind) -> bool
    ensures { result ≡ spec.same_kind a b }
{
    a == b
}

/// The refusal of a token that cannot stand where it does.
pub(crate) fn fault_of(kind: Kind) -> TextKind
    ensures { result ≡ spec.fault_of kind }
{
    match kind {
        Kind::Bad => TextKind::BadToken,
        _ => TextKind::Unexpected,
    }
}
