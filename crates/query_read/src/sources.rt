//! The tables of FROM, and other names.

ghost use Rattle.std.specs.Prelude.{◌≡◌, IfOk, [], ◌∷◌, ◌++◌};
ghost use Rattle.phrases.specs.Parsers.{Reads};
ghost use Rattle.query_read.specs.Nodes as nodes;
ghost use Rattle.query_read.specs.ClauseParsers as spec;

use crate::atoms::column;
use crate::expecting::{Class, expect, is_next_of};
use crate::fault::Fault;
use phrases::{Cursor, ReadError};
use query_trees::{Alias, ColumnName, Join, JoinKind, Source, TableName};
use sql_read::{Kind, Listing, Token, is_next, name_at};
use std::alloc::{AllocError, Global};

fn alias_of(alloc: Global, text: &[u8], n: Token) -> Result<Alias, AllocError>
    ensures { IfOk result (λ a. a ≡ nodes.alias_of text.now n) }
{
    Ok(Alias {
        name: name_at(alloc, text, n)?,
        at: n.at,
    })
}

#[tactic(auto, unfolding(crate::specs::ClauseParsers::named))]
fn named(
    alloc: Global,
    text: &[u8],
    tokens: &mut Cursor<'_, Token>,
) -> Result<Option<Alias>, ReadError<Fault>>
    ensures { Reads (spec.named text.now tokens.old) result tokens.new }
{
    let n = expect(tokens, Kind::Name)?;
    Ok(Some(alias_of(alloc, text, n)?))
}

/// `[[AS] name]`
#[tactic(auto, unfolding(crate::specs::ClauseParsers::alias))]
pub fn alias(
    alloc: Global,
    text: &[u8],
    tokens: &mut Cursor<'_, Token>,
) -> Result<Option<Alias>, ReadError<Fault>>
    ensures { Reads (spec.alias text.now tokens.old) result tokens.new }
{
    if is_next(tokens, Kind::As) {
        expect(tokens, Kind::As)?;
        named(alloc, text, tokens)
    } else if is_next(tokens, Kind::Name) {
        named(alloc, text, tokens)
    } else {
        Ok(None)
    }
}

fn table_of(
    alloc: Global,
    text: &[u8],
    n: Token,
    alias: Option<Alias>,
) -> Result<TableName, AllocError>
    ensures { IfOk result (λ t. t ≡ nodes.table_of text.now n alias) }
{
    Ok(TableName {
        name: name_at(alloc, text, n)?,
        at: n.at,
        alias,
    })
}

/// `table = name [[AS] name]`
#[tactic(auto, unfolding(crate::specs::ClauseParsers::table))]
fn table(
    alloc: Global,
    text: &[u8],
    tokens: &mut Cursor<'_, Token>,
) -> Result<TableName, ReadError<Fault>>
    ensures { Reads (spec.table text.now tokens.old) result tokens.new }
{
    let n = expect(tokens, Kind::Name)?;
    let a = alias(alloc, text, tokens)?;
    Ok(table_of(alloc, text, n, a)?)
}

fn cross_join(t: Token, table: TableName) -> Join
    ensures { result ≡ nodes.cross_join t table }
{
    Join {
        at: t.at,
        table,
        kind: JoinKind::Cross,
    }
}

fn key_join(t: Token, table: TableName, a: ColumnName, q: Token, b: ColumnName) -> Join
    ensures { result ≡ nodes.key_join t table a q b }
{
    Join {
        at: t.at,
        table,
        kind: JoinKind::On(a, q.at, b),
    }
}

#[tactic(auto, unfolding(crate::specs::ClauseParsers::by_comma))]
fn by_comma(
    alloc: Global,
    text: &[u8],
    tokens: &mut Cursor<'_, Token>,
) -> Result<Join, ReadError<Fault>>
    ensures { Reads (spec.by_comma text.now tokens.old) result tokens.new }
{
    let t = expect(tokens, Kind::Comma)?;
    Ok(cross_join(t, table(alloc, text, tokens)?))
}

#[tactic(auto, unfolding(crate::specs::ClauseParsers::by_cross))]
fn by_cross(
    alloc: Global,
    text: &[u8],
    tokens: &mut Cursor<'_, Token>,
) -> Result<Join, ReadError<Fault>>
    ensures { Reads (spec.by_cross text.now tokens.old) result tokens.new }
{
    let t = expect(tokens, Kind::Cross)?;
    expect(tokens, Kind::Join)?;
    Ok(cross_join(t, table(alloc, text, tokens)?))
}

/// `table ON column "=" column`, after the words that begin the join.
#[tactic(auto, unfolding(crate::specs::ClauseParsers::on))]
fn on(
    alloc: Global,
    text: &[u8],
    tokens: &mut Cursor<'_, Token>,
    t: Token,
) -> Result<Join, ReadError<Fault>>
    ensures { Reads (spec.on text.now t tokens.old) result tokens.new }
{
    let added = table(alloc, text, tokens)?;
    expect(tokens, Kind::On)?;
    let a = column(alloc, text, tokens)?;
    let q = expect(tokens, Kind::Equal)?;
    let b = column(alloc, text, tokens)?;
    Ok(key_join(t, added, a, q, b))
}

#[tactic(auto, unfolding(crate::specs::ClauseParsers::by_key))]
fn by_key(
    alloc: Global,
    text: &[u8],
    tokens: &mut Cursor<'_, Token>,
) -> Result<Join, ReadError<Fault>>
    ensures { Reads (spec.by_key text.now tokens.old) result tokens.new }
{
    if is_next(tokens, Kind::Inner) {
        let t = expect(tokens, Kind::Inner)?;
        expect(tokens, Kind::Join)?;
        on(alloc, text, tokens, t)
    } else {
        let t = expect(tokens, Kind::Join)?;
        on(alloc, text, tokens, t)
    }
}

#[tactic(auto, unfolding(crate::specs::ClauseParsers::added_table))]
fn added_table(
    alloc: Global,
    text: &[u8],
    tokens: &mut Cursor<'_, Token>,
) -> Result<Join, ReadError<Fault>>
    ensures { Reads (spec.added_table text.now tokens.old) result tokens.new }
{
    if is_next(tokens, Kind::Comma) {
        by_comma(alloc, text, tokens)
    } else if is_next(tokens, Kind::Cross) {
        by_cross(alloc, text, tokens)
    } else {
        by_key(alloc, text, tokens)
    }
}

#[tactic(auto, unfolding(crate::specs::ClauseParsers::join))]
fn join(
    alloc: Global,
    text: &[u8],
    tokens: &mut Cursor<'_, Token>,
    found: Listing<Join>,
) -> Result<Listing<Join>, ReadError<Fault>>
    ensures { Reads (spec.join text.now found tokens.old) result tokens.new }
{
    let mut joins = found;
    joins.push(added_table(alloc, text, tokens)?)?;
    Ok(joins)
}

fn more_joins(
    alloc: Global,
    text: &[u8],
    tokens: &mut Cursor<'_, Token>,
    found: Listing<Join>,
) -> Result<Listing<Join>, ReadError<Fault>>
    ensures { Reads (spec.more_joins text.now found tokens.old) result tokens.new }
{
    let mut joins = found;
    for _turn in 0..tokens.left() {
        if !is_next_of(tokens, Class::Join) {
            return Ok(joins);
        }
        joins = join(alloc, text, tokens, joins)?;
    }
    Ok(joins)
}

/// The tables of FROM.
#[tactic(auto, unfolding(crate::specs::ClauseParsers::source))]
pub fn source(
    alloc: Global,
    text: &[u8],
    tokens: &mut Cursor<'_, Token>,
) -> Result<Source, ReadError<Fault>>
    ensures { Reads (spec.source text.now tokens.old) result tokens.new }
{
    let first = table(alloc, text, tokens)?;
    let joins = more_joins(alloc, text, tokens, Listing::new(alloc))?;
    Ok(Source { first, joins })
}
