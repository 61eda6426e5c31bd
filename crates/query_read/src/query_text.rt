//! Whole queries.

ghost use Rattle.std.specs.Prelude.{◌≡◌, ◌≢◌, ◌-◌, ◌<◌, ◌^◌, length, drop, Ok, Err, IfOk, IfErr, MatchResult};
ghost use Rattle.phrases.specs.Parsers.{ended, Ends};
ghost use Rattle.sql_read.specs.SchemaText.{place_of, kind_at};
ghost use Rattle.query_read.specs.Asked.{all};
ghost use Rattle.query_read.specs.ClauseParsers as parsers;
ghost use Rattle.query_read.specs.Numbers.{IsMeasured};
ghost use Rattle.query_read.specs.QueryText.{query_of, read_tokens, query_tokens, refusal_at, kind_of, tokens_before, IsQuery, IsRefusal};
ghost use Rattle.query_trees.specs.declared.query.Query.{Query as Tree};
ghost use Rattle.sql_read.specs.declared.refusal.SqlRefusal.TheVariants.{NoMemory};

use crate::fault::Fault;
use crate::marking::marked;
use crate::query::query;
use phrases::{Cursor, ReadError};
use query_trees::Query;
use sql_read::{SqlKind, SqlRefusal, Token, refused_for_itself, tokens};
use std::alloc::Global;
use std::str::from_utf8;

/// The greatest number of tokens of a query.
const LIMIT: usize = 2048;

/// The greatest number of levels that are open at once.
const LEVELS: u8 = 64;

fn whole(alloc: Global, text: &[u8], tokens: &[Token]) -> Result<Query, ReadError<Fault>>
    ensures { Ends (ended Fault.Unexpected (parsers.query all text.now 64 tokens.now)) result }
{
    let mut cursor = Cursor::new(tokens);
    let q = query(alloc, text, &mut cursor, LEVELS)?;
    if cursor.left() == 0 {
        Ok(q)
    } else {
        Err(ReadError::Refused(Fault::Unexpected, cursor.left()))
    }
}

/// The first byte of the first of these tokens, or the text's length.
fn place(text: &[u8], rest: &[Token]) -> u32
    requires { length text.now < 2 ^ 32 }
    ensures { result ≡ place_of text.now rest.now }
{
    match rest {
        [] => text.len() as u32,
        [t, ..] => t.at,
    }
}

fn named_kind(fault: Fault) -> SqlKind
    ensures { result ≡ kind_of fault }
{
    match fault {
        Fault::Unexpected => SqlKind::Unexpected,
        Fault::TooDeep => SqlKind::TooDeep,
        Fault::NoDate => SqlKind::DateRange,
        Fault::NoSpan => SqlKind::BadToken,
        Fault::OutOfRange => SqlKind::DateRange,
    }
}

/// The kind of a refusal at the first of these tokens, which may be refused for its own sake.
fn refused_kind(rest: &[Token], by_grammar: SqlKind) -> SqlKind
    ensures { result ≡ kind_at rest.now by_grammar }
{
    match rest {
        [] => by_grammar,
        [t, ..] => refused_for_itself(t.kind).unwrap_or(by_grammar),
    }
}

fn from(tokens: &[Token], n: usize) -> &[Token]
    ensures { result.now ≡ drop n tokens.now }
{
    &tokens[n.min(tokens.len())..]
}

/// How many tokens stand before the place of a fault.
fn before_place(fault: Fault, n: usize) -> usize
    ensures { result ≡ tokens_before fault n }
{
    match fault {
        Fault::OutOfRange => n.saturating_sub(3),
        _ => n,
    }
}

/// The refusal of the token that so many stand before.
fn refusal(text: &[u8], tokens: &[Token], fault: Fault, n: usize) -> SqlRefusal
    requires { length text.now < 2 ^ 32 }
    ensures { result ≡ refusal_at text.now tokens.now fault n }
{
    SqlRefusal::Bad {
        at: place(text, from(tokens, before_place(fault, n))),
        kind: refused_kind(from(tokens, n), named_kind(fault)),
    }
}

fn read_text(alloc: Global, text: &[u8]) -> Result<Query, SqlRefusal>
    requires { length text.now < 2 ^ 32 }
    ensures { MatchResult result (λ q. read_tokens text.now (query_tokens text.now) ≡ Ok q) (λ e. e ≢ NoMemory → read_tokens text.now (query_tokens text.now) ≡ Err e) }
{
    let plain = tokens(alloc, text, LIMIT)?;
    let tokens = marked(alloc, plain.as_slice())?;
    match whole(alloc, text, tokens.as_slice()) {
        Ok(q) => Ok(q),
        Err(ReadError::NoMemory) => Err(SqlRefusal::NoMemory),
        Err(ReadError::Refused(fault, left)) => Err(refusal(
            text,
            tokens.as_slice(),
            fault,
            tokens.len().saturating_sub(left),
        )),
    }
}

fn read_bytes(alloc: Global, bytes: &[u8]) -> Result<Query, SqlRefusal>
    requires { length bytes.now < 2 ^ 32 }
    ensures { MatchResult result (λ q. query_of bytes.now ≡ Ok q) (λ e. e ≢ NoMemory → query_of bytes.now ≡ Err e) }
{
    match from_utf8(bytes) {
        Ok(_) => read_text(alloc, bytes),
        Err(e) => Err(SqlRefusal::Bad {
            at: e.valid_up_to() as u32,
            kind: SqlKind::NotText,
        }),
    }
}

/// The query that a text is, or the first refusal.
///
/// The text is `SELECT [DISTINCT] list FROM source [WHERE expr] [GROUP BY column {"," column} [HAVING expr]]
/// [ORDER BY key {"," key}] [";"]`, after SQL-92 (ISO/IEC 9075:1992), clauses 5 to 8 and 13.1. It has at most 2,048 tokens, and
/// at most 64 levels are open at once: a parenthesis, a NOT before a predicate, or a sign before an atom. A number has at most 18
/// digits after its point, and a value of at most 2^127 - 1 without it; a divisor and the place of a key have no point. A date is one of
/// 0001-01-01 to 9999-12-31, and each step of date arithmetic stays there.
pub fn read_query(alloc: Global, bytes: &[u8]) -> Result<Query, SqlRefusal>
    requires { length bytes.now < 2 ^ 32 }
    // What is read is that query.
    ensures found { IfOk result (IsQuery bytes.now) }
    // Its numbers have at most 18 digits after the point, and a value of at most 2^127 - 1.
    ensures measured { IfOk result IsMeasured }
    // A query is read, and as no other, unless memory runs out.
    ensures only { (q : Tree) → IsQuery bytes.now q → MatchResult result (λ r. r ≡ q) (λ e. e ≡ NoMemory) }
    // What is refused is refused at its first refusal.
    ensures refused { IfErr result (IsRefusal bytes.now) }
    // The answer is one function of the text, unless memory runs out.
    ensures answer { MatchResult result (λ q. query_of bytes.now ≡ Ok q) (λ e. e ≢ NoMemory → query_of bytes.now ≡ Err e) }
{
    read_bytes(alloc, bytes)
}
