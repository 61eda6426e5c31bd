//! Expressions, rule by rule. `levels` is how many levels may still be opened.

ghost use Rattle.std.specs.Prelude.{◌≡◌, [], ◌∷◌, length};
ghost use Rattle.phrases.specs.Parsers.{Reads};
ghost use Rattle.query_read.specs.Asked as asked;
ghost use Rattle.query_read.specs.ExpressionParsers as spec;

use crate::atoms::{literal, nullity, number, over, reference};
use crate::dates::date;
use crate::enclosing::{Choices, Enclosure};
use crate::expecting::{Class, expect, expect_of, is_next_of, refused, shut};
use crate::fault::Fault;
use crate::nodes::{
    aggregated, between_node, binary, chosen, comparison, counted_node, in_node, signed_node,
    sum_op,
};
use phrases::{Cursor, ReadError};
use query_trees::{BinaryOp, Expr, Form, Polarity, node};
use sql_read::{Kind, Token, is_next};
use sqlite_items::Items;
use std::alloc::Global;

/// `atom = integer | decimal | text | date | column | aggregate | COALESCE "(" expr "," expr {"," expr} ")" | "(" expr ")"`
#[cycle(expr)]
#[tactic(auto, unfolding(crate::specs::ExpressionParsers::atom))]
fn atom(
    alloc: Global,
    text: &[u8],
    tokens: &mut Cursor<'_, Token>,
    levels: u8,
) -> Result<Expr, ReadError<Fault>>
    ensures { Reads (spec.atom asked.all text.now (spec.under asked.all text.now levels) tokens.old) result tokens.new }
{
    if is_next_of(tokens, Class::Numeral) {
        number(alloc, tokens)
    } else if is_next(tokens, Kind::Quoted) {
        literal(alloc, text, tokens)
    } else if is_next(tokens, Kind::Date) {
        date(alloc, text, tokens)
    } else if is_next(tokens, Kind::Name) {
        reference(alloc, text, tokens)
    } else if is_next(tokens, Kind::Count) {
        count(alloc, text, tokens, levels)
    } else if is_next_of(tokens, Class::Aggregate) {
        aggregate(alloc, text, tokens, levels)
    } else if is_next(tokens, Kind::Coalesce) {
        coalesce(alloc, text, tokens, levels)
    } else {
        enclosed(alloc, text, tokens, levels)
    }
}

/// `COUNT "(" ("*" | expr) ")"`
#[cycle(expr)]
#[tactic(auto, unfolding(crate::specs::ExpressionParsers::count))]
fn count(
    alloc: Global,
    text: &[u8],
    tokens: &mut Cursor<'_, Token>,
    levels: u8,
) -> Result<Expr, ReadError<Fault>>
    ensures { Reads (spec.count (spec.under asked.all text.now levels) tokens.old) result tokens.new }
{
    let t = expect(tokens, Kind::Count)?;
    let of = counted(alloc, text, tokens, levels)?;
    Ok(counted_node(alloc, t, of)?)
}

/// `"(" ("*" | expr) ")"`: the expression, or none for all rows.
#[cycle(expr)]
#[tactic(auto, unfolding(crate::specs::ExpressionParsers::counted))]
fn counted(
    alloc: Global,
    text: &[u8],
    tokens: &mut Cursor<'_, Token>,
    levels: u8,
) -> Result<Option<Expr>, ReadError<Fault>>
    ensures { Reads ((spec.under asked.all text.now levels).counted tokens.old) result tokens.new }
{
    if levels == 0 {
        return Err(shut(tokens));
    }
    if !is_next(tokens, Kind::OpenParen) {
        return Err(refused(tokens, Fault::Unexpected));
    }
    expect(tokens, Kind::OpenParen)?;
    let of = star_or_expr(alloc, text, tokens, levels - 1)?;
    expect(tokens, Kind::CloseParen)?;
    Ok(of)
}

#[cycle(expr)]
#[tactic(auto, unfolding(crate::specs::ExpressionParsers::star_or_expr))]
fn star_or_expr(
    alloc: Global,
    text: &[u8],
    tokens: &mut Cursor<'_, Token>,
    levels: u8,
) -> Result<Option<Expr>, ReadError<Fault>>
    ensures { Reads (spec.star_or_expr asked.all text.now (spec.under asked.all text.now levels) tokens.old) result tokens.new }
{
    if is_next(tokens, Kind::Star) {
        expect(tokens, Kind::Star)?;
        Ok(None)
    } else {
        Ok(Some(expr(alloc, text, tokens, levels)?))
    }
}

#[cycle(expr)]
#[tactic(auto, unfolding(crate::specs::ExpressionParsers::coalesce))]
fn coalesce(
    alloc: Global,
    text: &[u8],
    tokens: &mut Cursor<'_, Token>,
    levels: u8,
) -> Result<Expr, ReadError<Fault>>
    ensures { Reads (spec.coalesce (spec.under asked.all text.now levels) tokens.old) result tokens.new }
{
    let t = expect(tokens, Kind::Coalesce)?;
    let from = choices(alloc, text, tokens, levels)?;
    Ok(chosen(alloc, t, from)?)
}

/// `"(" expr "," expr {"," expr} ")"`
#[cycle(expr)]
#[tactic(auto, unfolding(crate::specs::ExpressionParsers::choices))]
fn choices(
    alloc: Global,
    text: &[u8],
    tokens: &mut Cursor<'_, Token>,
    levels: u8,
) -> Result<Choices, ReadError<Fault>>
    ensures { Reads ((spec.under asked.all text.now levels).choices tokens.old) result tokens.new }
{
    if levels == 0 {
        return Err(shut(tokens));
    }
    if !is_next(tokens, Kind::OpenParen) {
        return Err(refused(tokens, Fault::Unexpected));
    }
    expect(tokens, Kind::OpenParen)?;
    let found = alternatives(alloc, text, tokens, levels - 1)?;
    expect(tokens, Kind::CloseParen)?;
    Ok(found)
}

#[cycle(expr)]
#[tactic(auto, unfolding(crate::specs::ExpressionParsers::alternatives))]
fn alternatives(
    alloc: Global,
    text: &[u8],
    tokens: &mut Cursor<'_, Token>,
    levels: u8,
) -> Result<Choices, ReadError<Fault>>
    ensures { Reads (spec.alternatives asked.all text.now (spec.under asked.all text.now levels) tokens.old) result tokens.new }
{
    let first = expr(alloc, text, tokens, levels)?;
    expect(tokens, Kind::Comma)?;
    let others = exprs(alloc, text, tokens, levels)?;
    Ok(Choices { first, others })
}

#[cycle(expr)]
#[tactic(auto, unfolding(crate::specs::ExpressionParsers::series))]
fn exprs(
    alloc: Global,
    text: &[u8],
    tokens: &mut Cursor<'_, Token>,
    levels: u8,
) -> Result<Items<Expr>, ReadError<Fault>>
    ensures { Reads (spec.series (spec.expr asked.all text.now (spec.under asked.all text.now levels)) tokens.old) result tokens.new }
{
    let first = expr(alloc, text, tokens, levels)?;
    let mut found = Items::new(alloc);
    found.push(first)?;
    more_exprs(alloc, text, tokens, levels, found)
}

#[cycle(expr)]
fn more_exprs(
    alloc: Global,
    text: &[u8],
    tokens: &mut Cursor<'_, Token>,
    levels: u8,
    found: Items<Expr>,
) -> Result<Items<Expr>, ReadError<Fault>>
    ensures { Reads (spec.more (spec.expr asked.all text.now (spec.under asked.all text.now levels)) found tokens.old) result tokens.new }
{
    let mut exprs = found;
    for _turn in 0..tokens.left() {
        if !is_next(tokens, Kind::Comma) {
            return Ok(exprs);
        }
        expect(tokens, Kind::Comma)?;
        exprs.push(expr(alloc, text, tokens, levels)?)?;
    }
    Ok(exprs)
}

#[cycle(expr)]
#[tactic(auto, unfolding(crate::specs::ExpressionParsers::aggregate))]
fn aggregate(
    alloc: Global,
    text: &[u8],
    tokens: &mut Cursor<'_, Token>,
    levels: u8,
) -> Result<Expr, ReadError<Fault>>
    ensures { Reads (spec.aggregate (spec.under asked.all text.now levels) tokens.old) result tokens.new }
{
    let t = expect_of(tokens, Class::Aggregate)?;
    let of = parens(alloc, text, tokens, levels)?;
    Ok(aggregated(alloc, t, of.value)?)
}

#[cycle(expr)]
#[tactic(auto, unfolding(crate::specs::ExpressionParsers::enclosed))]
fn enclosed(
    alloc: Global,
    text: &[u8],
    tokens: &mut Cursor<'_, Token>,
    levels: u8,
) -> Result<Expr, ReadError<Fault>>
    ensures { Reads (spec.enclosed (spec.under asked.all text.now levels) tokens.old) result tokens.new }
{
    let of = parens(alloc, text, tokens, levels)?;
    Ok(node(alloc, of.at, Form::Enclosed(of.value))?)
}

/// `"(" expr ")"`
#[cycle(expr)]
#[tactic(auto, unfolding(crate::specs::ExpressionParsers::parens))]
fn parens(
    alloc: Global,
    text: &[u8],
    tokens: &mut Cursor<'_, Token>,
    levels: u8,
) -> Result<Enclosure, ReadError<Fault>>
    ensures { Reads ((spec.under asked.all text.now levels).parens tokens.old) result tokens.new }
{
    if levels == 0 {
        return Err(shut(tokens));
    }
    if !is_next(tokens, Kind::OpenParen) {
        return Err(refused(tokens, Fault::Unexpected));
    }
    let at = expect(tokens, Kind::OpenParen)?.at;
    let value = expr(alloc, text, tokens, levels - 1)?;
    expect(tokens, Kind::CloseParen)?;
    Ok(Enclosure { at, value })
}

#[cycle(expr)]
#[tactic(auto, unfolding(crate::specs::ExpressionParsers::signed))]
fn signed(
    alloc: Global,
    text: &[u8],
    tokens: &mut Cursor<'_, Token>,
    levels: u8,
) -> Result<Expr, ReadError<Fault>>
    ensures { Reads ((spec.under asked.all text.now levels).signed tokens.old) result tokens.new }
{
    if levels == 0 {
        return Err(refused(tokens, Fault::TooDeep));
    }
    let s = expect_of(tokens, Class::Sign)?;
    let of = atom(alloc, text, tokens, levels - 1)?;
    Ok(signed_node(alloc, s, of)?)
}

/// `factor = ["+" | "-"] atom`
#[cycle(expr)]
#[tactic(auto, unfolding(crate::specs::ExpressionParsers::factor))]
fn factor(
    alloc: Global,
    text: &[u8],
    tokens: &mut Cursor<'_, Token>,
    levels: u8,
) -> Result<Expr, ReadError<Fault>>
    ensures { Reads (spec.factor asked.all text.now (spec.under asked.all text.now levels) tokens.old) result tokens.new }
{
    if is_next_of(tokens, Class::Sign) {
        signed(alloc, text, tokens, levels)
    } else {
        atom(alloc, text, tokens, levels)
    }
}

#[cycle(expr)]
#[tactic(auto, unfolding(crate::specs::ExpressionParsers::times))]
fn times(
    alloc: Global,
    text: &[u8],
    tokens: &mut Cursor<'_, Token>,
    levels: u8,
    a: Expr,
) -> Result<Expr, ReadError<Fault>>
    ensures { Reads (spec.times asked.all text.now (spec.under asked.all text.now levels) a tokens.old) result tokens.new }
{
    let at = expect(tokens, Kind::Star)?.at;
    let b = factor(alloc, text, tokens, levels)?;
    Ok(binary(alloc, BinaryOp::Multiply, at, a, b)?)
}

#[cycle(expr)]
#[tactic(auto, unfolding(crate::specs::ExpressionParsers::multiplied))]
fn multiplied(
    alloc: Global,
    text: &[u8],
    tokens: &mut Cursor<'_, Token>,
    levels: u8,
    a: Expr,
) -> Result<Expr, ReadError<Fault>>
    ensures { Reads (spec.multiplied asked.all text.now (spec.under asked.all text.now levels) a tokens.old) result tokens.new }
{
    if is_next(tokens, Kind::Star) {
        times(alloc, text, tokens, levels, a)
    } else {
        over(alloc, tokens, a)
    }
}

/// `term = factor {"*" factor | "/" ["+" | "-"] integer}`
#[cycle(expr)]
fn term(
    alloc: Global,
    text: &[u8],
    tokens: &mut Cursor<'_, Token>,
    levels: u8,
) -> Result<Expr, ReadError<Fault>>
    ensures { Reads (spec.term asked.all text.now (spec.under asked.all text.now levels) tokens.old) result tokens.new }
{
    let mut left = factor(alloc, text, tokens, levels)?;
    for _turn in 0..tokens.left() {
        if !is_next_of(tokens, Class::Factor) {
            return Ok(left);
        }
        left = multiplied(alloc, text, tokens, levels, left)?;
    }
    Ok(left)
}

#[cycle(expr)]
#[tactic(auto, unfolding(crate::specs::ExpressionParsers::added))]
fn added(
    alloc: Global,
    text: &[u8],
    tokens: &mut Cursor<'_, Token>,
    levels: u8,
    a: Expr,
) -> Result<Expr, ReadError<Fault>>
    ensures { Reads (spec.added asked.all text.now (spec.under asked.all text.now levels) a tokens.old) result tokens.new }
{
    let s = expect_of(tokens, Class::Sign)?;
    let b = term(alloc, text, tokens, levels)?;
    Ok(binary(alloc, sum_op(s.kind), s.at, a, b)?)
}

/// `sum = term {("+" | "-") term}`
#[cycle(expr)]
fn sum(
    alloc: Global,
    text: &[u8],
    tokens: &mut Cursor<'_, Token>,
    levels: u8,
) -> Result<Expr, ReadError<Fault>>
    ensures { Reads (spec.sum asked.all text.now (spec.under asked.all text.now levels) tokens.old) result tokens.new }
{
    let mut left = term(alloc, text, tokens, levels)?;
    for _turn in 0..tokens.left() {
        if !is_next_of(tokens, Class::Sign) {
            return Ok(left);
        }
        left = added(alloc, text, tokens, levels, left)?;
    }
    Ok(left)
}

#[cycle(expr)]
#[tactic(auto, unfolding(crate::specs::ExpressionParsers::compared))]
fn compared(
    alloc: Global,
    text: &[u8],
    tokens: &mut Cursor<'_, Token>,
    levels: u8,
    a: Expr,
) -> Result<Expr, ReadError<Fault>>
    ensures { Reads (spec.compared asked.all text.now (spec.under asked.all text.now levels) a tokens.old) result tokens.new }
{
    let t = expect_of(tokens, Class::Comparison)?;
    let b = sum(alloc, text, tokens, levels)?;
    Ok(binary(alloc, comparison(t.kind), t.at, a, b)?)
}

#[cycle(expr)]
#[tactic(auto, unfolding(crate::specs::ExpressionParsers::between))]
fn between(
    alloc: Global,
    text: &[u8],
    tokens: &mut Cursor<'_, Token>,
    levels: u8,
    polarity: Polarity,
    a: Expr,
) -> Result<Expr, ReadError<Fault>>
    ensures { Reads (spec.between asked.all text.now (spec.under asked.all text.now levels) polarity a tokens.old) result tokens.new }
{
    let at = expect(tokens, Kind::Between)?.at;
    let low = sum(alloc, text, tokens, levels)?;
    expect(tokens, Kind::And)?;
    let high = sum(alloc, text, tokens, levels)?;
    Ok(between_node(alloc, polarity, at, a, low, high)?)
}

#[cycle(expr)]
fn more_sums(
    alloc: Global,
    text: &[u8],
    tokens: &mut Cursor<'_, Token>,
    levels: u8,
    found: Items<Expr>,
) -> Result<Items<Expr>, ReadError<Fault>>
    ensures { Reads (spec.more (spec.sum asked.all text.now (spec.under asked.all text.now levels)) found tokens.old) result tokens.new }
{
    let mut sums = found;
    for _turn in 0..tokens.left() {
        if !is_next(tokens, Kind::Comma) {
            return Ok(sums);
        }
        expect(tokens, Kind::Comma)?;
        sums.push(sum(alloc, text, tokens, levels)?)?;
    }
    Ok(sums)
}

#[cycle(expr)]
#[tactic(auto, unfolding(crate::specs::ExpressionParsers::series))]
fn sums(
    alloc: Global,
    text: &[u8],
    tokens: &mut Cursor<'_, Token>,
    levels: u8,
) -> Result<Items<Expr>, ReadError<Fault>>
    ensures { Reads (spec.series (spec.sum asked.all text.now (spec.under asked.all text.now levels)) tokens.old) result tokens.new }
{
    let first = sum(alloc, text, tokens, levels)?;
    let mut found = Items::new(alloc);
    found.push(first)?;
    more_sums(alloc, text, tokens, levels, found)
}

/// `"(" sum {"," sum} ")"`
#[cycle(expr)]
#[tactic(auto, unfolding(crate::specs::ExpressionParsers::listed))]
fn listed(
    alloc: Global,
    text: &[u8],
    tokens: &mut Cursor<'_, Token>,
    levels: u8,
) -> Result<Items<Expr>, ReadError<Fault>>
    ensures { Reads ((spec.under asked.all text.now levels).list tokens.old) result tokens.new }
{
    if levels == 0 {
        return Err(shut(tokens));
    }
    if !is_next(tokens, Kind::OpenParen) {
        return Err(refused(tokens, Fault::Unexpected));
    }
    expect(tokens, Kind::OpenParen)?;
    let found = sums(alloc, text, tokens, levels - 1)?;
    expect(tokens, Kind::CloseParen)?;
    Ok(found)
}

#[cycle(expr)]
#[tactic(auto, unfolding(crate::specs::ExpressionParsers::contained))]
fn contained(
    alloc: Global,
    text: &[u8],
    tokens: &mut Cursor<'_, Token>,
    levels: u8,
    polarity: Polarity,
    a: Expr,
) -> Result<Expr, ReadError<Fault>>
    ensures { Reads (spec.contained (spec.under asked.all text.now levels) polarity a tokens.old) result tokens.new }
{
    let at = expect(tokens, Kind::In)?.at;
    let among = listed(alloc, text, tokens, levels)?;
    Ok(in_node(alloc, polarity, at, a, among)?)
}

#[cycle(expr)]
#[tactic(auto, unfolding(crate::specs::ExpressionParsers::ranged))]
fn ranged(
    alloc: Global,
    text: &[u8],
    tokens: &mut Cursor<'_, Token>,
    levels: u8,
    polarity: Polarity,
    a: Expr,
) -> Result<Expr, ReadError<Fault>>
    ensures { Reads (spec.ranged asked.all text.now (spec.under asked.all text.now levels) polarity a tokens.old) result tokens.new }
{
    if is_next(tokens, Kind::Between) {
        between(alloc, text, tokens, levels, polarity, a)
    } else {
        contained(alloc, text, tokens, levels, polarity, a)
    }
}

#[cycle(expr)]
#[tactic(auto, unfolding(crate::specs::ExpressionParsers::negated))]
fn negated(
    alloc: Global,
    text: &[u8],
    tokens: &mut Cursor<'_, Token>,
    levels: u8,
    a: Expr,
) -> Result<Expr, ReadError<Fault>>
    ensures { Reads (spec.negated asked.all text.now (spec.under asked.all text.now levels) a tokens.old) result tokens.new }
{
    expect(tokens, Kind::Not)?;
    ranged(alloc, text, tokens, levels, Polarity::Negated, a)
}

/// What follows the first sum of a predicate.
#[cycle(expr)]
#[tactic(auto, unfolding(crate::specs::ExpressionParsers::predicate_tail))]
fn test(
    alloc: Global,
    text: &[u8],
    tokens: &mut Cursor<'_, Token>,
    levels: u8,
    a: Expr,
) -> Result<Expr, ReadError<Fault>>
    ensures { Reads (spec.predicate_tail asked.all text.now (spec.under asked.all text.now levels) a tokens.old) result tokens.new }
{
    if is_next_of(tokens, Class::Comparison) {
        compared(alloc, text, tokens, levels, a)
    } else if is_next(tokens, Kind::Not) {
        negated(alloc, text, tokens, levels, a)
    } else if is_next_of(tokens, Class::Range) {
        ranged(alloc, text, tokens, levels, Polarity::Plain, a)
    } else if is_next(tokens, Kind::Is) {
        nullity(alloc, tokens, a)
    } else {
        Ok(a)
    }
}

#[cycle(expr)]
#[tactic(auto, unfolding(crate::specs::ExpressionParsers::pred))]
fn pred(
    alloc: Global,
    text: &[u8],
    tokens: &mut Cursor<'_, Token>,
    levels: u8,
) -> Result<Expr, ReadError<Fault>>
    ensures { Reads (spec.pred asked.all text.now (spec.under asked.all text.now levels) tokens.old) result tokens.new }
{
    let a = sum(alloc, text, tokens, levels)?;
    test(alloc, text, tokens, levels, a)
}

#[cycle(expr)]
#[tactic(auto, unfolding(crate::specs::ExpressionParsers::nots))]
fn nots(
    alloc: Global,
    text: &[u8],
    tokens: &mut Cursor<'_, Token>,
    levels: u8,
) -> Result<Expr, ReadError<Fault>>
    ensures { Reads ((spec.under asked.all text.now levels).nots tokens.old) result tokens.new }
{
    if levels == 0 {
        return Err(refused(tokens, Fault::TooDeep));
    }
    let at = expect(tokens, Kind::Not)?.at;
    let of = neg(alloc, text, tokens, levels - 1)?;
    Ok(node(alloc, at, Form::Not(of))?)
}

/// `neg = {NOT} pred`
#[cycle(expr)]
#[tactic(auto, unfolding(crate::specs::ExpressionParsers::neg))]
fn neg(
    alloc: Global,
    text: &[u8],
    tokens: &mut Cursor<'_, Token>,
    levels: u8,
) -> Result<Expr, ReadError<Fault>>
    ensures { Reads (spec.neg asked.all text.now (spec.under asked.all text.now levels) tokens.old) result tokens.new }
{
    if is_next(tokens, Kind::Not) {
        nots(alloc, text, tokens, levels)
    } else {
        pred(alloc, text, tokens, levels)
    }
}

/// `conj = neg {AND neg}`
#[cycle(expr)]
fn conj(
    alloc: Global,
    text: &[u8],
    tokens: &mut Cursor<'_, Token>,
    levels: u8,
) -> Result<Expr, ReadError<Fault>>
    ensures { Reads (spec.conj asked.all text.now (spec.under asked.all text.now levels) tokens.old) result tokens.new }
{
    let mut left = neg(alloc, text, tokens, levels)?;
    for _turn in 0..tokens.left() {
        if !is_next(tokens, Kind::And) {
            return Ok(left);
        }
        let at = expect(tokens, Kind::And)?.at;
        let right = neg(alloc, text, tokens, levels)?;
        left = binary(alloc, BinaryOp::And, at, left, right)?;
    }
    Ok(left)
}

/// An expression: `expr = conj {OR conj}`.
#[cycle(expr)]
pub fn expr(
    alloc: Global,
    text: &[u8],
    tokens: &mut Cursor<'_, Token>,
    levels: u8,
) -> Result<Expr, ReadError<Fault>>
    ensures { Reads (spec.expr asked.all text.now (spec.under asked.all text.now levels) tokens.old) result tokens.new }
{
    let mut left = conj(alloc, text, tokens, levels)?;
    for _turn in 0..tokens.left() {
        if !is_next(tokens, Kind::Or) {
            return Ok(left);
        }
        let at = expect(tokens, Kind::Or)?.at;
        let right = conj(alloc, text, tokens, levels)?;
        left = binary(alloc, BinaryOp::Or, at, left, right)?;
    }
    Ok(left)
}
