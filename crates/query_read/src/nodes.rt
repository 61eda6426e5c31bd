//! What the tokens of a rule make.

ghost use Rattle.std.specs.Prelude.{◌≡◌, IfOk};
ghost use Rattle.query_read.specs.Nodes as spec;
ghost use Rattle.query_trees.specs.Nodes as trees;

use crate::enclosing::Choices;
use query_trees::{AggregateKind, BinaryOp, ColumnName, Divisor, Expr, Form, Polarity, Sign, node};
use sql_read::{Kind, Token, name_at};
use sqlite_items::Items;
use std::alloc::{AllocError, Global};

pub fn sign_of(kind: Kind) -> Sign
    ensures { result ≡ spec.sign_of kind }
{
    match kind {
        Kind::Minus | Kind::StepMinus => Sign::Minus,
        _ => Sign::Plus,
    }
}

pub fn sum_op(kind: Kind) -> BinaryOp
    ensures { result ≡ spec.sum_op kind }
{
    match kind {
        Kind::Minus => BinaryOp::Subtract,
        _ => BinaryOp::Add,
    }
}

pub fn comparison(kind: Kind) -> BinaryOp
    ensures { result ≡ spec.comparison kind }
{
    match kind {
        Kind::Differs => BinaryOp::Differs,
        Kind::Less => BinaryOp::Less,
        Kind::LessEqual => BinaryOp::LessEqual,
        Kind::Greater => BinaryOp::Greater,
        Kind::GreaterEqual => BinaryOp::GreaterEqual,
        _ => BinaryOp::Equal,
    }
}

pub fn aggregate_of(kind: Kind) -> AggregateKind
    ensures { result ≡ spec.aggregate_of kind }
{
    match kind {
        Kind::Min => AggregateKind::Min,
        Kind::Max => AggregateKind::Max,
        Kind::Avg => AggregateKind::Avg,
        _ => AggregateKind::Sum,
    }
}

/// Two expressions, from the first byte of the left one on.
pub fn binary(alloc: Global, op: BinaryOp, at: u32, a: Expr, b: Expr) -> Result<Expr, AllocError>
    ensures { IfOk result (λ x. x ≡ spec.binary op at a b) }
{
    let first = a.at;
    node(alloc, first, Form::Binary(op, at, a, b))
}

pub fn divisor_of(sign: Option<Sign>, n: Token) -> Divisor
    ensures { result ≡ spec.divisor_of sign n }
{
    Divisor {
        sign,
        value: n.value,
        value_at: n.at,
    }
}

pub fn divided(alloc: Global, at: u32, a: Expr, by: Divisor) -> Result<Expr, AllocError>
    ensures { IfOk result (λ x. x ≡ spec.divided at a by) }
{
    let first = a.at;
    node(alloc, first, Form::Divide(at, a, by))
}

pub fn aggregated(alloc: Global, t: Token, of: Expr) -> Result<Expr, AllocError>
    ensures { IfOk result (λ x. x ≡ trees.node t.at (Form.Aggregate (spec.aggregate_of t.kind) of)) }
{
    node(alloc, t.at, Form::Aggregate(aggregate_of(t.kind), of))
}

/// COUNT of an expression, or of all rows where there is none.
pub fn counted_node(alloc: Global, t: Token, of: Option<Expr>) -> Result<Expr, AllocError>
    ensures { IfOk result (λ x. x ≡ spec.counted_node t of) }
{
    match of {
        None => node(alloc, t.at, Form::CountAll),
        Some(a) => node(alloc, t.at, Form::Aggregate(AggregateKind::Count, a)),
    }
}

pub fn chosen(alloc: Global, t: Token, from: Choices) -> Result<Expr, AllocError>
    ensures { IfOk result (λ x. x ≡ spec.chosen t from) }
{
    let Choices { first, others } = from;
    node(alloc, t.at, Form::Coalesce(first, others))
}

pub fn signed_node(alloc: Global, s: Token, of: Expr) -> Result<Expr, AllocError>
    ensures { IfOk result (λ x. x ≡ trees.node s.at (Form.Signed (spec.sign_of s.kind) of)) }
{
    node(alloc, s.at, Form::Signed(sign_of(s.kind), of))
}

pub fn between_node(
    alloc: Global,
    polarity: Polarity,
    at: u32,
    a: Expr,
    low: Expr,
    high: Expr,
) -> Result<Expr, AllocError>
    ensures { IfOk result (λ x. x ≡ trees.node a.at (Form.Between polarity at a low high)) }
{
    let first = a.at;
    node(alloc, first, Form::Between(polarity, at, a, low, high))
}

pub fn in_node(
    alloc: Global,
    polarity: Polarity,
    at: u32,
    a: Expr,
    among: Items<Expr>,
) -> Result<Expr, AllocError>
    ensures { IfOk result (λ x. x ≡ trees.node a.at (Form.In polarity at a among)) }
{
    let first = a.at;
    node(alloc, first, Form::In(polarity, at, a, among))
}

pub fn null_node(alloc: Global, polarity: Polarity, at: u32, a: Expr) -> Result<Expr, AllocError>
    ensures { IfOk result (λ x. x ≡ trees.node a.at (Form.IsNull polarity at a)) }
{
    let first = a.at;
    node(alloc, first, Form::IsNull(polarity, at, a))
}

/// A column's name alone.
pub fn bare(alloc: Global, text: &[u8], n: Token) -> Result<ColumnName, AllocError>
    ensures { IfOk result (λ c. c ≡ spec.bare text.now n) }
{
    Ok(ColumnName {
        at: n.at,
        table: None,
        name: name_at(alloc, text, n)?,
        name_at: n.at,
    })
}

/// A column's name behind its table's.
pub fn qualified(alloc: Global, text: &[u8], n: Token, c: Token) -> Result<ColumnName, AllocError>
    ensures { IfOk result (λ x. x ≡ spec.qualified text.now n c) }
{
    let table = name_at(alloc, text, n)?;
    let name = name_at(alloc, text, c)?;
    Ok(ColumnName {
        at: n.at,
        table: Some(table),
        name,
        name_at: c.at,
    })
}
