//! Atoms that open no level.

ghost use Rattle.std.specs.Prelude.{◌≡◌};
ghost use Rattle.phrases.specs.Parsers.{Reads};
ghost use Rattle.query_read.specs.ExpressionParsers as spec;

use crate::expecting::{Class, expect, expect_of, is_next_of};
use crate::fault::Fault;
use crate::literals::content;
use crate::nodes::{bare, divided, divisor_of, null_node, qualified, sign_of};
use phrases::{Cursor, ReadError};
use query_trees::{ColumnName, Divisor, Expr, Form, Polarity, node};
use sql_read::{Kind, Token, is_next};
use std::alloc::Global;

/// An integer, or a number with a point.
#[tactic(auto, unfolding(crate::specs::ExpressionParsers::number))]
pub fn number(alloc: Global, tokens: &mut Cursor<'_, Token>) -> Result<Expr, ReadError<Fault>>
    ensures { Reads (spec.number tokens.old) result tokens.new }
{
    let t = expect_of(tokens, Class::Numeral)?;
    Ok(node(alloc, t.at, Form::Number(t.value, t.scale))?)
}

#[tactic(auto, unfolding(crate::specs::ExpressionParsers::literal))]
pub fn literal(
    alloc: Global,
    text: &[u8],
    tokens: &mut Cursor<'_, Token>,
) -> Result<Expr, ReadError<Fault>>
    ensures { Reads (spec.literal text.now tokens.old) result tokens.new }
{
    let t = expect(tokens, Kind::Quoted)?;
    let value = content(alloc, text, t)?;
    Ok(node(alloc, t.at, Form::Text(value))?)
}

/// A column: `name ["." name]`.
#[tactic(auto, unfolding(crate::specs::ExpressionParsers::column))]
pub fn column(
    alloc: Global,
    text: &[u8],
    tokens: &mut Cursor<'_, Token>,
) -> Result<ColumnName, ReadError<Fault>>
    ensures { Reads (spec.column text.now tokens.old) result tokens.new }
{
    let n = expect(tokens, Kind::Name)?;
    if is_next(tokens, Kind::Dot) {
        expect(tokens, Kind::Dot)?;
        let c = expect(tokens, Kind::Name)?;
        Ok(qualified(alloc, text, n, c)?)
    } else {
        Ok(bare(alloc, text, n)?)
    }
}

#[tactic(auto, unfolding(crate::specs::ExpressionParsers::reference))]
pub fn reference(
    alloc: Global,
    text: &[u8],
    tokens: &mut Cursor<'_, Token>,
) -> Result<Expr, ReadError<Fault>>
    ensures { Reads (spec.reference text.now tokens.old) result tokens.new }
{
    let c = column(alloc, text, tokens)?;
    let first = c.at;
    Ok(node(alloc, first, Form::Column(c))?)
}

/// What a division divides by: `["+" | "-"] integer`.
#[tactic(auto, unfolding(crate::specs::ExpressionParsers::divisor))]
fn divisor(tokens: &mut Cursor<'_, Token>) -> Result<Divisor, ReadError<Fault>>
    ensures { Reads (spec.divisor tokens.old) result tokens.new }
{
    if is_next_of(tokens, Class::Sign) {
        let s = expect_of(tokens, Class::Sign)?;
        let n = expect(tokens, Kind::Digits)?;
        Ok(divisor_of(Some(sign_of(s.kind)), n))
    } else {
        let n = expect(tokens, Kind::Digits)?;
        Ok(divisor_of(None, n))
    }
}

/// A division of what stands to the left.
#[tactic(auto, unfolding(crate::specs::ExpressionParsers::over))]
pub fn over(
    alloc: Global,
    tokens: &mut Cursor<'_, Token>,
    a: Expr,
) -> Result<Expr, ReadError<Fault>>
    ensures { Reads (spec.over a tokens.old) result tokens.new }
{
    let t = expect(tokens, Kind::Slash)?;
    let by = divisor(tokens)?;
    Ok(divided(alloc, t.at, a, by)?)
}

#[tactic(auto, unfolding(crate::specs::ExpressionParsers::polarity))]
fn polarity(tokens: &mut Cursor<'_, Token>) -> Result<Polarity, ReadError<Fault>>
    ensures { Reads (spec.polarity tokens.old) result tokens.new }
{
    if is_next(tokens, Kind::Not) {
        expect(tokens, Kind::Not)?;
        Ok(Polarity::Negated)
    } else {
        Ok(Polarity::Plain)
    }
}

/// `IS [NOT] NULL`, of what stands to the left.
#[tactic(auto, unfolding(crate::specs::ExpressionParsers::nullity))]
pub fn nullity(
    alloc: Global,
    tokens: &mut Cursor<'_, Token>,
    a: Expr,
) -> Result<Expr, ReadError<Fault>>
    ensures { Reads (spec.nullity a tokens.old) result tokens.new }
{
    let at = expect(tokens, Kind::Is)?.at;
    let polarity = polarity(tokens)?;
    expect(tokens, Kind::Null)?;
    Ok(null_node(alloc, polarity, at, a)?)
}
