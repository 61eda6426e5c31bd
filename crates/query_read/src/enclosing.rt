//! What stands in parentheses.

use query_trees::Expr;
use sqlite_items::Items;

/// An expression in parentheses.
#[derive(Drop)]
pub struct Enclosure {
    /// The first byte of the parenthesis.
    pub at: u32,
    pub value: Expr,
}

/// What COALESCE chooses from: an expression, and at least one more.
#[derive(Drop)]
pub struct Choices {
    pub first: Expr,
    pub others: Items<Expr>,
}
