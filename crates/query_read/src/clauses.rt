//! Select lists, conditions, groups and orders.

ghost use Rattle.std.specs.Prelude.{◌≡◌, [], ◌∷◌, ◌++◌, None};
ghost use Rattle.phrases.specs.Parsers.{Reads};
ghost use Rattle.query_read.specs.Asked as asked;
ghost use Rattle.query_read.specs.Nodes as nodes;
ghost use Rattle.query_read.specs.ExpressionParsers as rules;
ghost use Rattle.query_read.specs.ClauseParsers as spec;

use crate::atoms::column;
use crate::expecting::expect;
use crate::expr::expr;
use crate::fault::Fault;
use crate::grouping::Grouping;
use crate::sources::alias;
use phrases::{Cursor, ReadError};
use query_trees::{ColumnName, Direction, Expr, SelectItem, SelectList, SortBy, SortKey};
use sql_read::{Kind, Listing, Token, is_next};
use std::alloc::Global;

/// `item = expr [[AS] name]`
#[tactic(auto, unfolding(crate::specs::ClauseParsers::item))]
fn item(
    alloc: Global,
    text: &[u8],
    tokens: &mut Cursor<'_, Token>,
    levels: u8,
) -> Result<SelectItem, ReadError<Fault>>
    ensures { Reads (spec.item text.now (rules.expr asked.all text.now (rules.under asked.all text.now levels)) tokens.old) result tokens.new }
{
    let value = expr(alloc, text, tokens, levels)?;
    let alias = alias(alloc, text, tokens)?;
    Ok(SelectItem { value, alias })
}

fn more_items(
    alloc: Global,
    text: &[u8],
    tokens: &mut Cursor<'_, Token>,
    levels: u8,
    found: Listing<SelectItem>,
) -> Result<Listing<SelectItem>, ReadError<Fault>>
    ensures { Reads (rules.more (spec.item text.now (rules.expr asked.all text.now (rules.under asked.all text.now levels))) found tokens.old) result tokens.new }
{
    let mut items = found;
    for _turn in 0..tokens.left() {
        if !is_next(tokens, Kind::Comma) {
            return Ok(items);
        }
        expect(tokens, Kind::Comma)?;
        items.push(item(alloc, text, tokens, levels)?)?;
    }
    Ok(items)
}

#[tactic(auto, unfolding(crate::specs::ExpressionParsers::series))]
fn items(
    alloc: Global,
    text: &[u8],
    tokens: &mut Cursor<'_, Token>,
    levels: u8,
) -> Result<Listing<SelectItem>, ReadError<Fault>>
    ensures { Reads (rules.series (spec.item text.now (rules.expr asked.all text.now (rules.under asked.all text.now levels))) tokens.old) result tokens.new }
{
    let first = item(alloc, text, tokens, levels)?;
    let mut found = Listing::new(alloc);
    found.push(first)?;
    more_items(alloc, text, tokens, levels, found)
}

/// `list = "*" | item {"," item}`
#[tactic(auto, unfolding(crate::specs::ClauseParsers::list))]
pub fn list(
    alloc: Global,
    text: &[u8],
    tokens: &mut Cursor<'_, Token>,
    levels: u8,
) -> Result<SelectList, ReadError<Fault>>
    ensures { Reads (spec.list text.now (rules.expr asked.all text.now (rules.under asked.all text.now levels)) tokens.old) result tokens.new }
{
    if is_next(tokens, Kind::Star) {
        let t = expect(tokens, Kind::Star)?;
        Ok(SelectList::All(t.at))
    } else {
        let found = items(alloc, text, tokens, levels)?;
        Ok(SelectList::Items(found))
    }
}

/// `[WHERE expr]` or `[HAVING expr]`
#[tactic(auto, unfolding(crate::specs::ClauseParsers::condition))]
pub fn condition(
    alloc: Global,
    text: &[u8],
    tokens: &mut Cursor<'_, Token>,
    levels: u8,
    kind: Kind,
) -> Result<Option<Expr>, ReadError<Fault>>
    ensures { Reads (spec.condition kind (rules.expr asked.all text.now (rules.under asked.all text.now levels)) tokens.old) result tokens.new }
{
    if is_next(tokens, kind) {
        expect(tokens, kind)?;
        let a = expr(alloc, text, tokens, levels)?;
        Ok(Some(a))
    } else {
        Ok(None)
    }
}

fn more_columns(
    alloc: Global,
    text: &[u8],
    tokens: &mut Cursor<'_, Token>,
    found: Listing<ColumnName>,
) -> Result<Listing<ColumnName>, ReadError<Fault>>
    ensures { Reads (rules.more (rules.column text.now) found tokens.old) result tokens.new }
{
    let mut columns = found;
    for _turn in 0..tokens.left() {
        if !is_next(tokens, Kind::Comma) {
            return Ok(columns);
        }
        expect(tokens, Kind::Comma)?;
        columns.push(column(alloc, text, tokens)?)?;
    }
    Ok(columns)
}

#[tactic(auto, unfolding(crate::specs::ExpressionParsers::series))]
fn columns(
    alloc: Global,
    text: &[u8],
    tokens: &mut Cursor<'_, Token>,
) -> Result<Listing<ColumnName>, ReadError<Fault>>
    ensures { Reads (rules.series (rules.column text.now) tokens.old) result tokens.new }
{
    let first = column(alloc, text, tokens)?;
    let mut found = Listing::new(alloc);
    found.push(first)?;
    more_columns(alloc, text, tokens, found)
}

#[tactic(auto, unfolding(crate::specs::ClauseParsers::by_groups))]
fn by_groups(
    alloc: Global,
    text: &[u8],
    tokens: &mut Cursor<'_, Token>,
    levels: u8,
) -> Result<Grouping, ReadError<Fault>>
    ensures { Reads (spec.by_groups text.now (rules.expr asked.all text.now (rules.under asked.all text.now levels)) tokens.old) result tokens.new }
{
    expect(tokens, Kind::Group)?;
    expect(tokens, Kind::By)?;
    let groups = columns(alloc, text, tokens)?;
    let having = condition(alloc, text, tokens, levels, Kind::Having)?;
    Ok(Grouping { groups, having })
}

/// `[GROUP BY column {"," column} [HAVING expr]]`
#[tactic(auto, unfolding(crate::specs::ClauseParsers::groups))]
pub fn groups(
    alloc: Global,
    text: &[u8],
    tokens: &mut Cursor<'_, Token>,
    levels: u8,
) -> Result<Grouping, ReadError<Fault>>
    ensures { Reads (spec.groups text.now (rules.expr asked.all text.now (rules.under asked.all text.now levels)) tokens.old) result tokens.new }
{
    if is_next(tokens, Kind::Group) {
        by_groups(alloc, text, tokens, levels)
    } else {
        Ok(Grouping {
            groups: Listing::new(alloc),
            having: None,
        })
    }
}

/// `[ASC | DESC]`
#[tactic(auto, unfolding(crate::specs::ClauseParsers::direction))]
fn direction(tokens: &mut Cursor<'_, Token>) -> Result<Direction, ReadError<Fault>>
    ensures { Reads (spec.direction tokens.old) result tokens.new }
{
    if is_next(tokens, Kind::Asc) {
        expect(tokens, Kind::Asc)?;
        Ok(Direction::Ascending)
    } else if is_next(tokens, Kind::Desc) {
        expect(tokens, Kind::Desc)?;
        Ok(Direction::Descending)
    } else {
        Ok(Direction::Ascending)
    }
}

fn by_place(n: Token) -> SortKey
    ensures { result ≡ nodes.by_place n }
{
    SortKey {
        at: n.at,
        by: SortBy::Place(n.value),
        direction: Direction::Ascending,
    }
}

fn by_column(c: ColumnName) -> SortKey
    ensures { result ≡ nodes.by_column c }
{
    SortKey {
        at: c.at,
        by: SortBy::Column(c),
        direction: Direction::Ascending,
    }
}

#[tactic(auto, unfolding(crate::specs::ClauseParsers::sort_by))]
fn sort_by(
    alloc: Global,
    text: &[u8],
    tokens: &mut Cursor<'_, Token>,
) -> Result<SortKey, ReadError<Fault>>
    ensures { Reads (spec.sort_by text.now tokens.old) result tokens.new }
{
    if is_next(tokens, Kind::Digits) {
        let n = expect(tokens, Kind::Digits)?;
        Ok(by_place(n))
    } else {
        let c = column(alloc, text, tokens)?;
        Ok(by_column(c))
    }
}

/// `key = (integer | column) [ASC | DESC]`
#[tactic(auto, unfolding(crate::specs::ClauseParsers::key))]
fn key(
    alloc: Global,
    text: &[u8],
    tokens: &mut Cursor<'_, Token>,
) -> Result<SortKey, ReadError<Fault>>
    ensures { Reads (spec.key text.now tokens.old) result tokens.new }
{
    let SortKey { at, by, .. } = sort_by(alloc, text, tokens)?;
    let direction = direction(tokens)?;
    Ok(SortKey { at, by, direction })
}

fn more_keys(
    alloc: Global,
    text: &[u8],
    tokens: &mut Cursor<'_, Token>,
    found: Listing<SortKey>,
) -> Result<Listing<SortKey>, ReadError<Fault>>
    ensures { Reads (rules.more (spec.key text.now) found tokens.old) result tokens.new }
{
    let mut keys = found;
    for _turn in 0..tokens.left() {
        if !is_next(tokens, Kind::Comma) {
            return Ok(keys);
        }
        expect(tokens, Kind::Comma)?;
        keys.push(key(alloc, text, tokens)?)?;
    }
    Ok(keys)
}

#[tactic(auto, unfolding(crate::specs::ExpressionParsers::series))]
fn keys(
    alloc: Global,
    text: &[u8],
    tokens: &mut Cursor<'_, Token>,
) -> Result<Listing<SortKey>, ReadError<Fault>>
    ensures { Reads (rules.series (spec.key text.now) tokens.old) result tokens.new }
{
    let first = key(alloc, text, tokens)?;
    let mut found = Listing::new(alloc);
    found.push(first)?;
    more_keys(alloc, text, tokens, found)
}

/// `[ORDER BY key {"," key}]`
#[tactic(auto, unfolding(crate::specs::ClauseParsers::order))]
pub fn order(
    alloc: Global,
    text: &[u8],
    tokens: &mut Cursor<'_, Token>,
) -> Result<Listing<SortKey>, ReadError<Fault>>
    ensures { Reads (spec.order text.now tokens.old) result tokens.new }
{
    if is_next(tokens, Kind::Order) {
        expect(tokens, Kind::Order)?;
        expect(tokens, Kind::By)?;
        keys(alloc, text, tokens)
    } else {
        Ok(Listing::new(alloc))
    }
}
