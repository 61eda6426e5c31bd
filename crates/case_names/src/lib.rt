//! Names of what the trees of queries hold, as the programs of cases show them.
#![tactic(auto)]

use query_trees::{BinaryOp, Polarity, Sign};
use sql_read::{ColumnKind, SqlKind};

pub fn sql_kind_name(kind: SqlKind) -> &'static str {
    match kind {
        SqlKind::NotText => "NotText",
        SqlKind::BadToken => "BadToken",
        SqlKind::NumberTooWide => "NumberTooWide",
        SqlKind::TooLong => "TooLong",
        SqlKind::Unexpected => "Unexpected",
        SqlKind::TooDeep => "TooDeep",
        SqlKind::DateRange => "DateRange",
    }
}

pub fn column_kind_name(kind: ColumnKind) -> &'static str {
    match kind {
        ColumnKind::Integer => "integer",
        ColumnKind::Date => "date",
        ColumnKind::Text => "text",
        ColumnKind::Decimal => "decimal",
    }
}

pub fn operator_name(op: BinaryOp) -> &'static str {
    match op {
        BinaryOp::Or => "OR",
        BinaryOp::And => "AND",
        BinaryOp::Equal => "=",
        BinaryOp::Differs => "<>",
        BinaryOp::Less => "<",
        BinaryOp::LessEqual => "<=",
        BinaryOp::Greater => ">",
        BinaryOp::GreaterEqual => ">=",
        BinaryOp::Add => "+",
        BinaryOp::Subtract => "-",
        BinaryOp::Multiply => "*",
    }
}

/// A sign before an operand.
pub fn sign_name(sign: Sign) -> &'static str {
    match sign {
        Sign::Plus => "plus",
        Sign::Minus => "minus",
    }
}

/// A sign as it is written.
pub fn sign_mark(sign: Sign) -> &'static str {
    match sign {
        Sign::Plus => "+",
        Sign::Minus => "-",
    }
}

pub fn polarity_name(polarity: Polarity) -> &'static str {
    match polarity {
        Polarity::Plain => "",
        Polarity::Negated => "NOT ",
    }
}
