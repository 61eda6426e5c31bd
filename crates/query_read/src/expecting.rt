//! One token at a time.

ghost use Rattle.std.specs.Prelude.{◌≡◌, length, Some, None, Err};
ghost use Rattle.phrases.specs.Parsers.{Reads, next, head, refuse};
ghost use Rattle.phrases.specs.Parsers as parsers;
ghost use Rattle.query_read.specs.Nodes as nodes;
ghost use Rattle.query_read.specs.Classes as classes;
ghost use Rattle.query_read.specs.ExpressionParsers as spec;

use crate::fault::Fault;
use phrases::{Cursor, ReadError};
use sql_read::{Kind, Token, expect_kind, is_next};

/// Kinds of tokens that stand in one place.
#[derive(Clone, Copy)]
pub enum Class {
    /// `+` and `-`.
    Sign,
    /// The same between a date and INTERVAL.
    Step,
    /// `*` and `/`.
    Factor,
    /// `=`, `<>`, `<`, `<=`, `>` and `>=`.
    Comparison,
    /// BETWEEN and IN.
    Range,
    /// Integers, and numbers with a point.
    Numeral,
    /// SUM, MIN, MAX and AVG.
    Aggregate,
    /// What begins a table that is added: a comma, CROSS, INNER and JOIN.
    Join,
}

fn is_in(class: Class, kind: Kind) -> bool
    ensures { result ≡ classes.kinds class kind }
{
    match class {
        Class::Sign => matches!(kind, Kind::Plus | Kind::Minus),
        Class::Step => matches!(kind, Kind::StepPlus | Kind::StepMinus),
        Class::Factor => matches!(kind, Kind::Star | Kind::Slash),
        Class::Comparison => is_comparison(kind),
        Class::Range => matches!(kind, Kind::Between | Kind::In),
        Class::Numeral => matches!(kind, Kind::Digits | Kind::Fraction),
        Class::Aggregate => matches!(kind, Kind::Sum | Kind::Min | Kind::Max | Kind::Avg),
        Class::Join => matches!(kind, Kind::Comma | Kind::Cross | Kind::Inner | Kind::Join),
    }
}

fn is_comparison(kind: Kind) -> bool
    ensures { result ≡ nodes.compares kind }
{
    match kind {
        Kind::Equal | Kind::Differs | Kind::Less => true,
        Kind::LessEqual | Kind::Greater | Kind::GreaterEqual => true,
        _ => false,
    }
}

/// The fault of the next token, or of the end.
pub fn refused(tokens: &Cursor<'_, Token>, fault: Fault) -> ReadError<Fault>
    ensures { result ≡ ReadError.Refused fault (length tokens.now) }
{
    ReadError::Refused(fault, tokens.left())
}

/// The next token, which is of the kind.
pub fn expect(tokens: &mut Cursor<'_, Token>, kind: Kind) -> Result<Token, ReadError<Fault>>
    ensures { Reads (spec.expect kind tokens.old) result tokens.new }
{
    expect_kind(tokens, kind, Fault::Unexpected)
}

/// Whether the next token is of the class.
pub fn is_next_of(tokens: &Cursor<'_, Token>, class: Class) -> bool
    ensures { result ≡ next (nodes.of (classes.kinds class)) tokens.now }
{
    match tokens.first() {
        None => false,
        Some(t) => is_in(class, t.kind),
    }
}

/// The next token, which is of the class.
#[tactic(auto, unfolding(phrases::specs::Parsers::expect))]
pub fn expect_of(tokens: &mut Cursor<'_, Token>, class: Class) -> Result<Token, ReadError<Fault>>
    ensures { Reads (spec.expect_of (classes.kinds class) tokens.old) result tokens.new }
{
    match tokens.first() {
        Some(t) if is_in(class, t.kind) => {
            let _taken = tokens.take();
            Ok(t)
        }
        _ => Err(refused(tokens, Fault::Unexpected)),
    }
}

/// The fault where no parenthesis may be opened: a parenthesis is too deep, and nothing else can stand there.
pub fn shut(tokens: &Cursor<'_, Token>) -> ReadError<Fault>
    ensures { result ≡ spec.shut tokens.now }
{
    if is_next(tokens, Kind::OpenParen) {
        refused(tokens, Fault::TooDeep)
    } else {
        refused(tokens, Fault::Unexpected)
    }
}
