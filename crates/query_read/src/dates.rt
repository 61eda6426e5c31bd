//! Dates with their intervals.

ghost use Rattle.std.specs.Prelude.{◌≡◌, length, true, ℤ};
ghost use Rattle.phrases.specs.Parsers.{Reads};
ghost use Rattle.sql_read.specs.Schema as grammar;
ghost use Rattle.query_read.specs.Asked as asked;
ghost use Rattle.query_read.specs.Days as days;
ghost use Rattle.query_read.specs.ExpressionParsers as spec;

use crate::days::{moved, span_of};
use crate::expecting::{Class, expect, expect_of, is_next_of, refused};
use crate::fault::Fault;
use crate::literals::inner;
use crate::nodes::sign_of;
use civil_days::{day_in_range, day_of};
use phrases::{Cursor, ReadError};
use query_trees::{Expr, Form, node};
use sql_read::{Kind, Token, same_kind};
use std::alloc::Global;

/// The day of a DATE's text.
#[tactic(auto, unfolding(crate::specs::ExpressionParsers::date_text, crate::specs::ExpressionParsers::sound, phrases::specs::Parsers::expect))]
fn date_text(text: &[u8], tokens: &mut Cursor<'_, Token>) -> Result<i32, ReadError<Fault>>
    ensures { Reads (spec.date_text asked.all text.now tokens.old) result tokens.new }
{
    match tokens.first() {
        Some(t) if same_kind(t.kind, Kind::Quoted) => match day_of(inner(text, t)) {
            None => Err(refused(tokens, Fault::NoDate)),
            Some(day) => {
                let _taken = tokens.take();
                Ok(day)
            }
        },
        _ => Err(refused(tokens, Fault::Unexpected)),
    }
}

/// The days of an INTERVAL's text.
#[tactic(auto, unfolding(crate::specs::ExpressionParsers::span_text, crate::specs::ExpressionParsers::sound, phrases::specs::Parsers::expect))]
fn span_text(text: &[u8], tokens: &mut Cursor<'_, Token>) -> Result<i32, ReadError<Fault>>
    ensures { Reads (spec.span_text asked.all text.now tokens.old) result tokens.new }
{
    match tokens.first() {
        Some(t) if same_kind(t.kind, Kind::Quoted) => match span_of(inner(text, t)) {
            None => Err(refused(tokens, Fault::NoSpan)),
            Some(days) => {
                let _taken = tokens.take();
                Ok(days)
            }
        },
        _ => Err(refused(tokens, Fault::Unexpected)),
    }
}

/// The DAY of a step, where the day after it is in range.
#[tactic(auto, unfolding(crate::specs::ExpressionParsers::last_day, crate::specs::ExpressionParsers::sound, phrases::specs::Parsers::expect))]
fn last_day(tokens: &mut Cursor<'_, Token>, day: i64) -> Result<i32, ReadError<Fault>>
    ensures { Reads (spec.last_day asked.all day tokens.old) result tokens.new }
{
    match tokens.first() {
        Some(t) if same_kind(t.kind, Kind::Day) => match day_in_range(day) {
            None => Err(refused(tokens, Fault::OutOfRange)),
            Some(day) => {
                let _taken = tokens.take();
                Ok(day)
            }
        },
        _ => Err(refused(tokens, Fault::Unexpected)),
    }
}

#[tactic(auto, unfolding(crate::specs::ExpressionParsers::step))]
fn step(text: &[u8], tokens: &mut Cursor<'_, Token>, day: i32) -> Result<i32, ReadError<Fault>>
    ensures { Reads (spec.step asked.all text.now day tokens.old) result tokens.new }
{
    let s = expect_of(tokens, Class::Step)?;
    expect(tokens, Kind::Interval)?;
    let days = span_text(text, tokens)?;
    last_day(tokens, moved(sign_of(s.kind), days, day))
}

fn more_steps(
    text: &[u8],
    tokens: &mut Cursor<'_, Token>,
    day: i32,
) -> Result<i32, ReadError<Fault>>
    ensures { Reads (spec.more_steps asked.all text.now day tokens.old) result tokens.new }
{
    let mut now = day;
    for _turn in 0..tokens.left() {
        if !is_next_of(tokens, Class::Step) {
            return Ok(now);
        }
        now = step(text, tokens, now)?;
    }
    Ok(now)
}

/// A date with its intervals.
#[tactic(auto, unfolding(crate::specs::ExpressionParsers::date))]
pub fn date(
    alloc: Global,
    text: &[u8],
    tokens: &mut Cursor<'_, Token>,
) -> Result<Expr, ReadError<Fault>>
    ensures { Reads (spec.date asked.all text.now tokens.old) result tokens.new }
{
    let t = expect(tokens, Kind::Date)?;
    let day = date_text(text, tokens)?;
    let day = more_steps(text, tokens, day)?;
    Ok(node(alloc, t.at, Form::Date(day))?)
}
