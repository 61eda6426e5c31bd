//! Typed expressions as trees of text.

use case_names::{column_kind_name, operator_name, polarity_name, sign_mark, sign_name};
use case_text::{show_bytes, show_count, show_number};
use query_trees::Sign;
use sql_read::ColumnKind;
use std::alloc::AllocError;
use typed_trees::{ColumnRef, ColumnType, TypedExpr};

/// The column as `source.column`.
pub fn show_place(out: &mut String, c: ColumnRef) -> Result<(), AllocError> {
    show_count(out, c.source as u128)?;
    out.push('.')?;
    show_count(out, c.column as u128)
}

/// A size of a column's type behind a mark.
fn show_size(out: &mut String, mark: &str, size: u32) -> Result<(), AllocError> {
    out.push_str(mark)?;
    show_count(out, size as u128)
}

fn show_type(out: &mut String, column: ColumnType) -> Result<(), AllocError> {
    out.push_str(column_kind_name(column.kind))?;
    match column.kind {
        ColumnKind::Integer | ColumnKind::Date => Ok(()),
        ColumnKind::Text => {
            show_size(out, "(", column.width)?;
            out.push(')')
        }
        ColumnKind::Decimal => {
            show_size(out, "(", column.width)?;
            show_size(out, ", ", column.scale)?;
            out.push(')')
        }
    }
}

fn show_column(out: &mut String, c: ColumnRef, column: ColumnType) -> Result<(), AllocError> {
    out.push('[')?;
    show_place(out, c)?;
    out.push(' ')?;
    show_type(out, column)?;
    out.push(']')?;
    Ok(())
}

/// The digits of a number, and behind them how many stand after the point: `15e-1`.
fn show_scaled(out: &mut String, n: u128, scale: u32) -> Result<(), AllocError> {
    show_count(out, n)?;
    if scale > 0 {
        show_size(out, "e-", scale)?;
    }
    Ok(())
}

fn show_text(out: &mut String, text: &[u8]) -> Result<(), AllocError> {
    out.push('\'')?;
    show_bytes(out, text)?;
    out.push('\'')?;
    Ok(())
}

fn show_date(out: &mut String, day: i32) -> Result<(), AllocError> {
    out.push_str("(day ")?;
    show_number(out, day as i128)?;
    out.push(')')?;
    Ok(())
}

fn show_aggregate(out: &mut String, place: u32, scale: u32) -> Result<(), AllocError> {
    show_size(out, "(aggregate ", place)?;
    if scale > 0 {
        show_size(out, " scale ", scale)?;
    }
    out.push(')')?;
    Ok(())
}

#[cycle(expressions)]
pub fn show_expression(out: &mut String, e: &TypedExpr) -> Result<(), AllocError> {
    match e {
        TypedExpr::Number(n, scale) => show_scaled(out, *n, *scale),
        TypedExpr::Text(text) => show_text(out, text.text().as_bytes()),
        TypedExpr::Date(day) => show_date(out, *day),
        TypedExpr::Column(c, column) => show_column(out, *c, *column),
        TypedExpr::Aggregate(place, scale) => show_aggregate(out, *place, *scale),
        _ => show_operation(out, e),
    }
}

/// A form with operands, in parentheses.
#[cycle(expressions)]
fn show_operation(out: &mut String, e: &TypedExpr) -> Result<(), AllocError> {
    out.push('(')?;
    match e {
        TypedExpr::Signed(sign, x) => show_one(out, sign_name(*sign), x.get())?,
        TypedExpr::Not(x) => show_one(out, "NOT", x.get())?,
        TypedExpr::Binary(op, x, y) => {
            show_one(out, operator_name(*op), x.get())?;
            show_operand(out, y.get())?;
        }
        TypedExpr::Divide(x, sign, digits) => show_quotient(out, x.get(), *sign, *digits)?,
        TypedExpr::Between(polarity, x, low, high) => {
            out.push_str(polarity_name(*polarity))?;
            show_one(out, "BETWEEN", x.get())?;
            show_operand(out, low.get())?;
            show_operand(out, high.get())?;
        }
        TypedExpr::In(polarity, x, among) => {
            out.push_str(polarity_name(*polarity))?;
            show_one(out, "IN", x.get())?;
            show_operands(out, among.as_slice())?;
        }
        TypedExpr::IsNull(polarity, x) => {
            out.push_str(polarity_name(*polarity))?;
            show_one(out, "IS NULL", x.get())?;
        }
        TypedExpr::Coalesce(x, others) => {
            show_one(out, "COALESCE", x.get())?;
            show_operands(out, others.as_slice())?;
        }
        _ => {}
    }
    out.push(')')?;
    Ok(())
}

#[cycle(expressions)]
fn show_operand(out: &mut String, x: &TypedExpr) -> Result<(), AllocError> {
    out.push(' ')?;
    show_expression(out, x)
}

#[cycle(expressions)]
fn show_one(out: &mut String, word: &str, x: &TypedExpr) -> Result<(), AllocError> {
    out.push_str(word)?;
    show_operand(out, x)
}

#[cycle(expressions)]
fn show_quotient(
    out: &mut String,
    x: &TypedExpr,
    sign: Sign,
    digits: u128,
) -> Result<(), AllocError> {
    show_one(out, "/", x)?;
    out.push(' ')?;
    out.push_str(sign_mark(sign))?;
    show_count(out, digits)
}

#[cycle(expressions)]
fn show_operands(out: &mut String, xs: &[TypedExpr]) -> Result<(), AllocError> {
    for x in xs {
        show_operand(out, x)?;
    }
    Ok(())
}
