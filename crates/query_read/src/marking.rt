//! The signs that belong to a date.

ghost use Rattle.std.specs.Prelude.{◌≡◌, IfOk};
ghost use Rattle.phrases.specs.Parsers.{next};
ghost use Rattle.sql_read.specs.Schema as grammar;
ghost use Rattle.query_read.specs.Marked as spec;

use sql_read::{Kind, Token, same_kind};
use std::alloc::{AllocError, Global};

fn ends_date(before: Kind, last: Kind) -> bool
    ensures { result ≡ spec.ends_date before last }
{
    match (before, last) {
        (Kind::Date, Kind::Quoted) => true,
        (_, Kind::Day) => true,
        _ => false,
    }
}

fn begins_interval(tokens: &[Token]) -> bool
    ensures { result ≡ next (grammar.is Kind.Interval) tokens.now }
{
    match tokens {
        [] => false,
        [t, ..] => same_kind(t.kind, Kind::Interval),
    }
}

fn step_kind(kind: Kind) -> Kind
    ensures { result ≡ spec.step_kind kind }
{
    match kind {
        Kind::Plus => Kind::StepPlus,
        Kind::Minus => Kind::StepMinus,
        other => other,
    }
}

fn as_step(belongs: bool, t: Token) -> Token
    ensures { result ≡ spec.as_step belongs t }
{
    if belongs {
        Token {
            kind: step_kind(t.kind),
            ..t
        }
    } else {
        t
    }
}

/// The same tokens, where a sign between a date and INTERVAL is a step's.
///
/// So a reader that looks at one token tells `DATE '1998-12-01' - INTERVAL '90' DAY` from a difference.
pub fn marked(alloc: Global, tokens: &[Token]) -> Result<Vec<Token>, AllocError>
    ensures { IfOk result (λ v. v.items ≡ spec.marked tokens.now) }
{
    let mut out = Vec::with_capacity(alloc, tokens.len())?;
    let mut before = Kind::Blank;
    let mut last = Kind::Blank;
    let mut ahead = tokens;
    while let [t, rest @ ..] = ahead {
        out.push(as_step(ends_date(before, last) && begins_interval(rest), *t))?;
        before = last;
        last = t.kind;
        ahead = rest;
    }
    Ok(out)
}
