//! Why a field is no number of a column.

/// Why a field is no number of a column.
#[derive(Clone, Copy)]
pub enum NumberFault {
    /// The field does not have the form of such a number.
    NoNumber,
    /// It has the form, but the number is none that the column can hold.
    OutOfRange,
}
