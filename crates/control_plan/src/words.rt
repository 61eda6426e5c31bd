//! The words of a control file.
ghost use Rattle.std.specs.Prelude.{◌≡◌};
ghost use Rattle.control_plan.specs.Words as spec;

use crate::choices::{Grouping, Kernel, Split};

/// What a line sets.
#[derive(Clone, Copy)]
pub enum Word {
    Select,
    Layout,
    Level,
    Group,
    Kernel,
    Split,
    Piece,
}

/// What a word sets.
pub(crate) fn word_of(word: &[u8]) -> Option<Word>
    ensures { result ≡ spec.word_of word.now }
{
    if word == b"select".as_slice() {
        Some(Word::Select)
    } else if word == b"layout".as_slice() {
        Some(Word::Layout)
    } else if word == b"level".as_slice() {
        Some(Word::Level)
    } else if word == b"group".as_slice() {
        Some(Word::Group)
    } else if word == b"kernel".as_slice() {
        Some(Word::Kernel)
    } else if word == b"split".as_slice() {
        Some(Word::Split)
    } else if word == b"piece".as_slice() {
        Some(Word::Piece)
    } else {
        None
    }
}

/// How the rows of a group are brought together.
pub(crate) fn grouping_of(value: &[u8]) -> Option<Grouping>
    ensures { result ≡ spec.grouping_of value.now }
{
    if value == b"sort".as_slice() {
        Some(Grouping::Sort)
    } else if value == b"partition".as_slice() {
        Some(Grouping::Partition)
    } else {
        None
    }
}

/// What evaluates folds. No end stands behind the engine yet, so none can be asked for.
pub(crate) fn kernel_of(value: &[u8]) -> Option<Kernel>
    ensures { result ≡ spec.kernel_of value.now }
{
    if value == b"scalar".as_slice() {
        Some(Kernel::Scalar)
    } else if value == b"lanes".as_slice() {
        Some(Kernel::Lanes)
    } else {
        None
    }
}

/// How the work of a kernel is split.
pub(crate) fn split_of(value: &[u8]) -> Option<Split>
    ensures { result ≡ spec.split_of value.now }
{
    if value == b"even".as_slice() {
        Some(Split::Even)
    } else if value == b"claim".as_slice() {
        Some(Split::Claim)
    } else {
        None
    }
}
