//! Schemas, rule by rule.

ghost use Rattle.std.specs.Prelude.{◌≡◌, IfOk, [], ◌∷◌, ◌++◌, length, true, false};
ghost use Rattle.phrases.specs.Parsers as parsers;
ghost use Rattle.phrases.specs.Parsers.{Reads, next};
ghost use Rattle.sql_read.specs.SchemaParsers as spec;
ghost use Rattle.sql_read.specs.Schema as grammar;

use crate::definition::{ColumnDef, ColumnKind, KeyDef, TableDef};
use crate::expecting::{expect, is_next};
use crate::fault::Fault;
use crate::kind::Kind;
use crate::listing::Listing;
use crate::token_list::Token;
use crate::words::name_at;
use phrases::{Cursor, ReadError};
use std::alloc::{AllocError, Global};

/// The type of a column.
#[derive(Clone, Copy)]
pub struct ColumnType {
    kind: ColumnKind,
    width: u32,
    width_at: u32,
    scale: u32,
    scale_at: u32,
}

/// A column so far, and the keys of its table so far.
#[derive(Drop)]
pub struct Draft {
    column: ColumnDef,
    keys: Listing<KeyDef>,
}

/// The columns and keys of a table so far.
#[derive(Drop)]
pub struct Parts {
    columns: Listing<ColumnDef>,
    keys: Listing<KeyDef>,
}

/// The tables so far, and whether the last semicolon stands behind them.
#[derive(Drop)]
pub struct Run {
    pub tables: Listing<TableDef>,
    closed: bool,
}

fn typed(kind: ColumnKind, width: u32, at: u32) -> ColumnType
    ensures { result ≡ grammar.typed kind width at }
{
    ColumnType {
        kind,
        width,
        width_at: at,
        scale: 0,
        scale_at: at,
    }
}

fn capped(n: u128) -> u32
    ensures { result ≡ grammar.capped n }
{
    if n > 4294967295 { u32::MAX } else { n as u32 }
}

/// The type of this word with this number in parentheses.
fn sized(kind: ColumnKind, t: Token, n: Token) -> ColumnType
    ensures { result ≡ grammar.sized kind t n }
{
    ColumnType {
        kind,
        width: capped(n.value),
        width_at: n.at,
        scale: 0,
        scale_at: t.at,
    }
}

fn scaled(p: ColumnType, n: Token) -> ColumnType
    ensures { result ≡ grammar.scaled p n }
{
    ColumnType {
        scale: capped(n.value),
        scale_at: n.at,
        ..p
    }
}

#[tactic(auto, unfolding(crate::specs::SchemaParsers::width))]
fn width(tokens: &mut Cursor<'_, Token>, t: Token) -> Result<ColumnType, ReadError<Fault>>
    ensures { Reads (spec.width t tokens.old) result tokens.new }
{
    expect(tokens, Kind::OpenParen)?;
    let n = expect(tokens, Kind::Digits)?;
    expect(tokens, Kind::CloseParen)?;
    Ok(sized(ColumnKind::Text, t, n))
}

#[tactic(auto, unfolding(crate::specs::SchemaParsers::scale))]
fn scale(tokens: &mut Cursor<'_, Token>, p: ColumnType) -> Result<ColumnType, ReadError<Fault>>
    ensures { Reads (spec.scale p tokens.old) result tokens.new }
{
    if is_next(tokens, Kind::Comma) {
        expect(tokens, Kind::Comma)?;
        let n = expect(tokens, Kind::Digits)?;
        Ok(scaled(p, n))
    } else {
        Ok(p)
    }
}

#[tactic(auto, unfolding(crate::specs::SchemaParsers::precision))]
fn precision(tokens: &mut Cursor<'_, Token>, t: Token) -> Result<ColumnType, ReadError<Fault>>
    ensures { Reads (spec.precision t tokens.old) result tokens.new }
{
    expect(tokens, Kind::OpenParen)?;
    let n = expect(tokens, Kind::Digits)?;
    let p = scale(tokens, sized(ColumnKind::Decimal, t, n))?;
    expect(tokens, Kind::CloseParen)?;
    Ok(p)
}

fn names_integers(kind: Kind) -> bool
    ensures { result ≡ grammar.names_integers kind }
{
    match kind {
        Kind::Integer | Kind::Int | Kind::Bigint => true,
        _ => false,
    }
}

fn is_integer_type_next(tokens: &Cursor<'_, Token>) -> bool
    ensures { result ≡ next grammar.is_integer_type tokens.now }
{
    match tokens.first() {
        None => false,
        Some(t) => names_integers(t.kind),
    }
}

/// The next token, which is `INTEGER`, `INT` or `BIGINT`.
#[tactic(auto, unfolding(phrases::specs::Parsers::expect))]
fn integer_type(tokens: &mut Cursor<'_, Token>) -> Result<Token, ReadError<Fault>>
    ensures { Reads (parsers.expect Fault.Unexpected grammar.is_integer_type tokens.old) result tokens.new }
{
    match tokens.first() {
        Some(t) if names_integers(t.kind) => {
            let _taken = tokens.take();
            Ok(t)
        }
        _ => Err(ReadError::Refused(Fault::Unexpected, tokens.left())),
    }
}

#[tactic(auto, unfolding(crate::specs::SchemaParsers::column_type))]
fn column_type(tokens: &mut Cursor<'_, Token>) -> Result<ColumnType, ReadError<Fault>>
    ensures { Reads (spec.column_type tokens.old) result tokens.new }
{
    if is_integer_type_next(tokens) {
        let t = integer_type(tokens)?;
        Ok(typed(ColumnKind::Integer, 0, t.at))
    } else if is_next(tokens, Kind::Date) {
        let t = expect(tokens, Kind::Date)?;
        Ok(typed(ColumnKind::Date, 0, t.at))
    } else if is_next(tokens, Kind::Decimal) {
        let t = expect(tokens, Kind::Decimal)?;
        precision(tokens, t)
    } else if is_next(tokens, Kind::Varchar) {
        let t = expect(tokens, Kind::Varchar)?;
        width(tokens, t)
    } else {
        let t = expect(tokens, Kind::Char)?;
        if is_next(tokens, Kind::OpenParen) {
            width(tokens, t)
        } else {
            Ok(typed(ColumnKind::Text, 1, t.at))
        }
    }
}

fn begun(
    alloc: Global,
    text: &[u8],
    n: Token,
    t: ColumnType,
    keys: Listing<KeyDef>,
) -> Result<Draft, AllocError>
    ensures { IfOk result (λ d. d ≡ grammar.begun text.now n t keys) }
{
    Ok(Draft {
        column: ColumnDef {
            name: name_at(alloc, text, n)?,
            at: n.at,
            kind: t.kind,
            width: t.width,
            width_at: t.width_at,
            scale: t.scale,
            scale_at: t.scale_at,
            not_null: false,
        },
        keys,
    })
}

fn marked_not_null(d: Draft) -> Draft
    ensures { result ≡ grammar.marked_not_null d }
{
    let Draft { mut column, keys } = d;
    column.not_null = true;
    Draft { column, keys }
}

fn marked_key(alloc: Global, d: Draft, p: Token) -> Result<Draft, AllocError>
    ensures { IfOk result (λ e. e ≡ grammar.marked_key d p) }
{
    let Draft { column, mut keys } = d;
    let key = KeyDef {
        column: column.name.copied(alloc)?,
        at: p.at,
        name_at: column.at,
    };
    keys.push(key)?;
    Ok(Draft { column, keys })
}

#[tactic(auto, unfolding(crate::specs::SchemaParsers::constraint))]
fn constraint(
    alloc: Global,
    tokens: &mut Cursor<'_, Token>,
    d: Draft,
) -> Result<Draft, ReadError<Fault>>
    ensures { Reads (spec.constraint d tokens.old) result tokens.new }
{
    if is_next(tokens, Kind::Not) {
        expect(tokens, Kind::Not)?;
        expect(tokens, Kind::Null)?;
        Ok(marked_not_null(d))
    } else {
        let p = expect(tokens, Kind::Primary)?;
        expect(tokens, Kind::Key)?;
        Ok(marked_key(alloc, d, p)?)
    }
}

fn begins_constraint(tokens: &Cursor<'_, Token>) -> bool
    ensures { result ≡ next spec.begins_constraint tokens.now }
{
    is_next(tokens, Kind::Not) || is_next(tokens, Kind::Primary)
}

fn constraints(
    alloc: Global,
    tokens: &mut Cursor<'_, Token>,
    d: Draft,
) -> Result<Draft, ReadError<Fault>>
    ensures { Reads (spec.constraints d tokens.old) result tokens.new }
{
    let mut draft = d;
    for _turn in 0..tokens.left() {
        if !begins_constraint(tokens) {
            return Ok(draft);
        }
        draft = constraint(alloc, tokens, draft)?;
    }
    Ok(draft)
}

fn with_column(b: Listing<ColumnDef>, d: Draft) -> Result<Parts, AllocError>
    ensures { IfOk result (λ p. p ≡ record { columns = b ++ d.column ∷ []; keys = d.keys }) }
{
    let mut columns = b;
    let Draft { column, keys } = d;
    columns.push(column)?;
    Ok(Parts { columns, keys })
}

#[tactic(auto, unfolding(crate::specs::SchemaParsers::column))]
fn column(
    alloc: Global,
    text: &[u8],
    tokens: &mut Cursor<'_, Token>,
    b: Parts,
) -> Result<Parts, ReadError<Fault>>
    ensures { Reads (spec.column text.now b tokens.old) result tokens.new }
{
    let Parts { columns, keys } = b;
    let n = expect(tokens, Kind::Name)?;
    let t = column_type(tokens)?;
    let draft = begun(alloc, text, n, t, keys)?;
    let draft = constraints(alloc, tokens, draft)?;
    Ok(with_column(columns, draft)?)
}

fn with_key(alloc: Global, text: &[u8], b: Parts, p: Token, n: Token) -> Result<Parts, AllocError>
    ensures { IfOk result (λ c. c ≡ grammar.with_key text.now b p n) }
{
    let Parts { columns, mut keys } = b;
    let key = KeyDef {
        column: name_at(alloc, text, n)?,
        at: p.at,
        name_at: n.at,
    };
    keys.push(key)?;
    Ok(Parts { columns, keys })
}

#[tactic(auto, unfolding(crate::specs::SchemaParsers::key))]
fn key(
    alloc: Global,
    text: &[u8],
    tokens: &mut Cursor<'_, Token>,
    b: Parts,
) -> Result<Parts, ReadError<Fault>>
    ensures { Reads (spec.key text.now b tokens.old) result tokens.new }
{
    let p = expect(tokens, Kind::Primary)?;
    expect(tokens, Kind::Key)?;
    expect(tokens, Kind::OpenParen)?;
    let n = expect(tokens, Kind::Name)?;
    expect(tokens, Kind::CloseParen)?;
    Ok(with_key(alloc, text, b, p, n)?)
}

#[tactic(auto, unfolding(crate::specs::SchemaParsers::part))]
fn part(
    alloc: Global,
    text: &[u8],
    tokens: &mut Cursor<'_, Token>,
    b: Parts,
) -> Result<Parts, ReadError<Fault>>
    ensures { Reads (spec.part text.now b tokens.old) result tokens.new }
{
    if is_next(tokens, Kind::Name) {
        column(alloc, text, tokens, b)
    } else {
        key(alloc, text, tokens, b)
    }
}

#[tactic(auto, unfolding(crate::specs::SchemaParsers::next_part))]
fn next_part(
    alloc: Global,
    text: &[u8],
    tokens: &mut Cursor<'_, Token>,
    b: Parts,
) -> Result<Parts, ReadError<Fault>>
    ensures { Reads (spec.next_part text.now b tokens.old) result tokens.new }
{
    expect(tokens, Kind::Comma)?;
    part(alloc, text, tokens, b)
}

fn more_parts(
    alloc: Global,
    text: &[u8],
    tokens: &mut Cursor<'_, Token>,
    b: Parts,
) -> Result<Parts, ReadError<Fault>>
    ensures { Reads (spec.more_parts text.now b tokens.old) result tokens.new }
{
    let mut parts = b;
    for _turn in 0..tokens.left() {
        if !is_next(tokens, Kind::Comma) {
            return Ok(parts);
        }
        parts = next_part(alloc, text, tokens, parts)?;
    }
    Ok(parts)
}

fn no_parts(alloc: Global) -> Parts
    ensures { result ≡ grammar.no_parts }
{
    Parts {
        columns: Listing::new(alloc),
        keys: Listing::new(alloc),
    }
}

fn table(alloc: Global, text: &[u8], n: Token, b: Parts) -> Result<TableDef, AllocError>
    ensures { IfOk result (λ t. t ≡ grammar.table text.now n b) }
{
    let Parts { columns, keys } = b;
    Ok(TableDef {
        name: name_at(alloc, text, n)?,
        at: n.at,
        columns,
        keys,
    })
}

#[tactic(auto, unfolding(crate::specs::SchemaParsers::create))]
fn create(
    alloc: Global,
    text: &[u8],
    tokens: &mut Cursor<'_, Token>,
) -> Result<TableDef, ReadError<Fault>>
    ensures { Reads (spec.create text.now tokens.old) result tokens.new }
{
    expect(tokens, Kind::Create)?;
    expect(tokens, Kind::Table)?;
    let n = expect(tokens, Kind::Name)?;
    expect(tokens, Kind::OpenParen)?;
    let b = part(alloc, text, tokens, no_parts(alloc))?;
    let b = more_parts(alloc, text, tokens, b)?;
    expect(tokens, Kind::CloseParen)?;
    Ok(table(alloc, text, n, b)?)
}

#[tactic(auto, unfolding(crate::specs::SchemaParsers::next_table))]
fn next_table(
    alloc: Global,
    text: &[u8],
    tokens: &mut Cursor<'_, Token>,
    run: Run,
) -> Result<Run, ReadError<Fault>>
    ensures { Reads (spec.another text.now run tokens.old) result tokens.new }
{
    let Run { mut tables, closed } = run;
    if closed {
        return Err(ReadError::Refused(Fault::Unexpected, tokens.left()));
    }
    expect(tokens, Kind::Semicolon)?;
    if is_next(tokens, Kind::Create) {
        tables.push(create(alloc, text, tokens)?)?;
        Ok(Run {
            tables,
            closed: false,
        })
    } else {
        Ok(Run {
            tables,
            closed: true,
        })
    }
}

fn more_tables(
    alloc: Global,
    text: &[u8],
    tokens: &mut Cursor<'_, Token>,
    r: Run,
) -> Result<Run, ReadError<Fault>>
    ensures { Reads (spec.more_tables text.now r tokens.old) result tokens.new }
{
    let mut run = r;
    for _turn in 0..tokens.left() {
        if !is_next(tokens, Kind::Semicolon) {
            return Ok(run);
        }
        run = next_table(alloc, text, tokens, run)?;
    }
    Ok(run)
}

#[tactic(auto, unfolding(crate::specs::SchemaParsers::tables))]
fn tables(
    alloc: Global,
    text: &[u8],
    tokens: &mut Cursor<'_, Token>,
) -> Result<Run, ReadError<Fault>>
    ensures { Reads (spec.tables text.now tokens.old) result tokens.new }
{
    let first = create(alloc, text, tokens)?;
    let mut tables = Listing::new(alloc);
    tables.push(first)?;
    more_tables(
        alloc,
        text,
        tokens,
        Run {
            tables,
            closed: false,
        },
    )
}

/// The tables of a schema, up to the first token that does not go on with one.
#[tactic(auto, unfolding(crate::specs::SchemaParsers::runs))]
pub fn runs(
    alloc: Global,
    text: &[u8],
    tokens: &mut Cursor<'_, Token>,
) -> Result<Run, ReadError<Fault>>
    ensures { Reads (spec.runs text.now tokens.old) result tokens.new }
{
    if is_next(tokens, Kind::Create) {
        tables(alloc, text, tokens)
    } else {
        Ok(Run {
            tables: Listing::new(alloc),
            closed: true,
        })
    }
}
