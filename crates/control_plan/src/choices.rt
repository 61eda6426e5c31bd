//! Choices between two or three ways.

/// How the rows of a group are brought together.
#[derive(Clone, Copy, Debug, PartialEq, Eq)]
pub enum Grouping {
    /// By a stable sort by the group columns.
    Sort,
    /// By a partition by each group column.
    Partition,
}

/// What evaluates folds.
#[derive(Clone, Copy, Debug, PartialEq, Eq)]
pub enum Kernel {
    /// Loops that go slot by slot.
    Scalar,
    /// Loops over narrow numbers without empty slots, where there are such, several a step.
    Lanes,
    /// The ends that stand behind the engine, each asked in turn, then its own loops.
    Ends,
}

/// How the work of a kernel is split between workers.
#[derive(Clone, Copy, Debug, PartialEq, Eq)]
pub enum Split {
    /// Into parts of one length.
    Even,
    /// Into pieces that the workers claim one after the other.
    Claim,
}
