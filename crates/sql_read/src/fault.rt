//! Why a token is refused by the grammar.

/// What is wrong with the refused token.
#[derive(Clone, Copy)]
pub enum Fault {
    /// It cannot stand there.
    Unexpected,
}
