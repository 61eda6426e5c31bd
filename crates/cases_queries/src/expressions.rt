//! Expressions as trees of text.

use crate::names::aggregate_name;
use case_names::{operator_name, polarity_name, sign_mark, sign_name};
use case_text::{show_bytes, show_count, show_number};
use query_trees::{ColumnName, Divisor, Expr, Form};
use std::alloc::AllocError;

/// The byte of an operator: ` @24`.
fn show_at(out: &mut String, at: u32) -> Result<(), AllocError> {
    out.push_str(" @")?;
    show_count(out, at as u128)
}

/// The column as `a`, or as `t.a@24` with the byte of its own name behind its table's.
pub fn show_column(out: &mut String, c: &ColumnName) -> Result<(), AllocError> {
    match &c.table {
        None => out.push_str(c.name.text()),
        Some(table) => {
            out.push_str(table.text())?;
            out.push('.')?;
            out.push_str(c.name.text())?;
            out.push('@')?;
            show_count(out, c.name_at as u128)
        }
    }
}

fn show_divisor(out: &mut String, by: &Divisor) -> Result<(), AllocError> {
    out.push(' ')?;
    show_count(out, by.value_at as u128)?;
    out.push(':')?;
    if let Some(sign) = by.sign {
        out.push_str(sign_mark(sign))?;
    }
    show_count(out, by.value)
}

fn show_text(out: &mut String, text: &[u8]) -> Result<(), AllocError> {
    out.push('\'')?;
    show_bytes(out, text)?;
    out.push('\'')?;
    Ok(())
}

fn show_date(out: &mut String, day: i32) -> Result<(), AllocError> {
    out.push_str("(day ")?;
    show_number(out, day as i128)?;
    out.push(')')?;
    Ok(())
}

/// A number by its digits, with the count of those after its point behind: `15e-1`.
fn show_scaled(out: &mut String, n: u128, scale: u32) -> Result<(), AllocError> {
    show_count(out, n)?;
    if scale > 0 {
        out.push_str("e-")?;
        show_count(out, scale as u128)?;
    }
    Ok(())
}

/// An expression with its first byte.
#[cycle(expressions)]
pub fn show_expression(out: &mut String, e: &Expr) -> Result<(), AllocError> {
    show_count(out, e.at as u128)?;
    out.push(':')?;
    show_form(out, e.form.get())
}

#[cycle(expressions)]
fn show_form(out: &mut String, form: &Form) -> Result<(), AllocError> {
    match form {
        Form::Number(n, scale) => show_scaled(out, *n, *scale),
        Form::Text(text) => show_text(out, text.text().as_bytes()),
        Form::Date(day) => show_date(out, *day),
        Form::Column(c) => show_column(out, c),
        Form::CountAll => out.push_str("(COUNT *)"),
        _ => show_operation(out, form),
    }
}

/// A form with operands, in parentheses.
#[cycle(expressions)]
fn show_operation(out: &mut String, form: &Form) -> Result<(), AllocError> {
    out.push('(')?;
    match form {
        Form::Aggregate(kind, x) => show_one(out, aggregate_name(*kind), x)?,
        Form::Enclosed(x) => show_one(out, "enclosed", x)?,
        Form::Signed(sign, x) => show_one(out, sign_name(*sign), x)?,
        Form::Not(x) => show_one(out, "NOT", x)?,
        Form::Binary(op, at, x, y) => {
            out.push_str(operator_name(*op))?;
            show_first(out, *at, x)?;
            show_operand(out, y)?;
        }
        Form::Divide(at, x, by) => show_quotient(out, *at, x, by)?,
        Form::Coalesce(x, others) => {
            show_one(out, "COALESCE", x)?;
            show_operands(out, others.as_slice())?;
        }
        _ => show_test(out, form)?,
    }
    out.push(')')?;
    Ok(())
}

/// BETWEEN, IN or IS NULL.
#[cycle(expressions)]
fn show_test(out: &mut String, form: &Form) -> Result<(), AllocError> {
    match form {
        Form::Between(polarity, at, x, low, high) => {
            out.push_str(polarity_name(*polarity))?;
            out.push_str("BETWEEN")?;
            show_first(out, *at, x)?;
            show_operand(out, low)?;
            show_operand(out, high)
        }
        Form::In(polarity, at, x, among) => {
            out.push_str(polarity_name(*polarity))?;
            out.push_str("IN")?;
            show_first(out, *at, x)?;
            show_operands(out, among.as_slice())
        }
        Form::IsNull(polarity, at, x) => {
            out.push_str("IS ")?;
            out.push_str(polarity_name(*polarity))?;
            out.push_str("NULL")?;
            show_first(out, *at, x)
        }
        _ => Ok(()),
    }
}

#[cycle(expressions)]
fn show_operand(out: &mut String, x: &Expr) -> Result<(), AllocError> {
    out.push(' ')?;
    show_expression(out, x)
}

#[cycle(expressions)]
fn show_one(out: &mut String, word: &str, x: &Expr) -> Result<(), AllocError> {
    out.push_str(word)?;
    show_operand(out, x)
}

/// The byte of an operator, and its first operand.
#[cycle(expressions)]
fn show_first(out: &mut String, at: u32, x: &Expr) -> Result<(), AllocError> {
    show_at(out, at)?;
    show_operand(out, x)
}

#[cycle(expressions)]
fn show_quotient(out: &mut String, at: u32, x: &Expr, by: &Divisor) -> Result<(), AllocError> {
    out.push('/')?;
    show_first(out, at, x)?;
    show_divisor(out, by)
}

#[cycle(expressions)]
fn show_operands(out: &mut String, xs: &[Expr]) -> Result<(), AllocError> {
    for x in xs {
        show_operand(out, x)?;
    }
    Ok(())
}
