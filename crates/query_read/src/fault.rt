//! Why a token is refused by the grammar.

/// What is wrong with the refused token.
#[derive(Clone, Copy)]
pub enum Fault {
    /// It cannot stand there.
    Unexpected,
    /// It opens a level too many.
    TooDeep,
    /// It is the text of a DATE, and no date.
    NoDate,
    /// It is the text of an INTERVAL, and no number of days.
    NoSpan,
    /// It is the DAY of a step that leaves the range of dates.
    OutOfRange,
}
