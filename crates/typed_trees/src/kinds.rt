//! The kinds of values, and the families of operators.

ghost use Rattle.std.specs.Prelude.{◌≡◌};
ghost use Rattle.typed_trees.specs.Kinds as spec;

use query_trees::BinaryOp;
use sql_read::ColumnKind;

/// The kind of an expression's values. Numbers of every scale are one kind.
#[derive(Clone, Copy)]
pub enum Kind {
    Number,
    Date,
    Text,
    Truth,
}

/// What an operator between two expressions works on.
#[derive(Clone, Copy)]
pub enum Family {
    /// Truths, which give a truth.
    Logic,
    /// Values of one kind that are no truths, which give a truth.
    Comparison,
    /// Numbers, which give a number.
    Arithmetic,
}

/// Where an expression stands. A text literal stands only as a side.
#[derive(Clone, Copy)]
pub enum Role {
    /// As a side of a comparison, of BETWEEN or of IN.
    Side,
    /// Anywhere else.
    Alone,
}

/// The kind of a column's values.
pub fn kind_of(column: ColumnKind) -> Kind
    ensures { result ≡ spec.kind_of column }
{
    match column {
        ColumnKind::Integer | ColumnKind::Decimal => Kind::Number,
        ColumnKind::Date => Kind::Date,
        ColumnKind::Text => Kind::Text,
    }
}

/// The family of an operator.
pub fn family_of(op: BinaryOp) -> Family
    ensures { result ≡ spec.family_of op }
{
    match op {
        BinaryOp::Or | BinaryOp::And => Family::Logic,
        BinaryOp::Add | BinaryOp::Subtract | BinaryOp::Multiply => Family::Arithmetic,
        _ => Family::Comparison,
    }
}

/// Where the operands of an operator stand.
pub fn role_in(of: Family) -> Role
    ensures { result ≡ spec.role_in of }
{
    match of {
        Family::Comparison => Role::Side,
        _ => Role::Alone,
    }
}
