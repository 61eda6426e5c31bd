//! Why a control file is refused.

use std::alloc::AllocError;
use thiserror::Error;

/// What is wrong with a line.
#[derive(Clone, Copy, Debug, PartialEq, Eq, Error)]
pub enum ControlKind {
    /// An unknown word, a word without a value, an unknown word as a value, or bytes that are not ASCII.
    #[error("a word is unknown or lacks its value")]
    BadWord,
    /// A word other than `level` that an earlier line has.
    #[error("an earlier line has this word")]
    LineTwice,
    /// The fifth level.
    #[error("there are more than 4 levels")]
    TooManyLevels,
    /// No four numbers where a control vector must stand, or no number of 1 to 2^20 where a piece must.
    #[error("a number is missing or out of range")]
    BadNumber,
    /// Four numbers that are no control vector.
    #[error("a control vector is not admissible")]
    NotAdmissible,
}

/// Why `read_control` read no plan.
#[derive(Clone, Copy, Debug, Drop, Error)]
pub enum ControlRefusal {
    /// The first line that is refused, counted from 1, and the first thing that is wrong with it.
    #[error("line {line}: {kind}")]
    Bad { line: u32, kind: ControlKind },
    /// Memory ran out.
    #[error("out of memory")]
    NoMemory,
}
