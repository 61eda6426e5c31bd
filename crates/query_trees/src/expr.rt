//! Expressions as they are written. Each node has its first byte, counted from 0.

ghost use Rattle.std.specs.Prelude.{◌≡◌, IfOk};
ghost use Rattle.query_trees.specs.Nodes as spec;

use io_edge::Name;
use sqlite_items::{Boxed, Items};
use std::alloc::{AllocError, Global};

/// An operator between two expressions.
#[derive(Clone, Copy)]
pub enum BinaryOp {
    Or,
    And,
    Equal,
    Differs,
    Less,
    LessEqual,
    Greater,
    GreaterEqual,
    Add,
    Subtract,
    Multiply,
}

/// A sign before a number or an expression.
#[derive(Clone, Copy)]
pub enum Sign {
    Plus,
    Minus,
}

/// An aggregate of an expression.
#[derive(Clone, Copy)]
pub enum AggregateKind {
    Count,
    Sum,
    Min,
    Max,
    Avg,
}

/// Whether `NOT` stands before `BETWEEN` or `IN`, or before the `NULL` of `IS NULL`.
#[derive(Clone, Copy)]
pub enum Polarity {
    Plain,
    Negated,
}

/// A column's name, perhaps behind its table's: `name ["." name]`.
#[derive(Drop)]
pub struct ColumnName {
    /// The first byte of the whole.
    pub at: u32,
    /// The table's name, folded to lower case, where one is written.
    pub table: Option<Name>,
    /// The column's name, folded to lower case.
    pub name: Name,
    /// The first byte of the column's name.
    pub name_at: u32,
}

/// What a division divides by: an integer, perhaps after a sign.
#[derive(Clone, Copy)]
pub struct Divisor {
    pub sign: Option<Sign>,
    /// At most 2^127 - 1.
    pub value: u128,
    /// The integer's first byte.
    pub value_at: u32,
}

/// An expression. It holds its form in a box, so that to let go of one is a single call, however many forms there are.
#[cycle(expression)]
#[derive(Drop)]
pub struct Expr {
    /// The first byte of the whole.
    pub at: u32,
    pub form: Boxed<Form>,
}

/// What an expression is. A place in a form is the first byte of its operator.
#[cycle(expression)]
#[derive(Drop)]
pub enum Form {
    /// A number without its point, at most 2^127 - 1, and how many of its digits stand after the point, at most 18: 0 for an integer.
    Number(u128, u32),
    /// A text literal, with two quotes inside as one.
    Text(Name),
    /// A date with its intervals: the days from 1970-01-01.
    Date(i32),
    Column(ColumnName),
    /// `COUNT(*)`.
    CountAll,
    Aggregate(AggregateKind, Expr),
    /// In parentheses.
    Enclosed(Expr),
    Signed(Sign, Expr),
    Not(Expr),
    Binary(BinaryOp, u32, Expr, Expr),
    Divide(u32, Expr, Divisor),
    /// The tested value, the least and the greatest that it may be.
    Between(Polarity, u32, Expr, Expr, Expr),
    /// The tested value, and those that it may be.
    In(Polarity, u32, Expr, Items<Expr>),
    /// `IS NULL`, and with `NOT` its contrary.
    IsNull(Polarity, u32, Expr),
    /// `COALESCE`, which begins at the node's first byte: its first operand and at least one more.
    Coalesce(Expr, Items<Expr>),
}

/// An expression of this form. It fails only for want of memory.
pub fn node(alloc: Global, at: u32, form: Form) -> Result<Expr, AllocError>
    ensures { IfOk result (λ e. e ≡ spec.node at form) }
{
    Ok(Expr {
        at,
        form: Boxed::new(alloc, form)?,
    })
}
