//! Queries, from SELECT to the end.

ghost use Rattle.std.specs.Prelude.{◌≡◌};
ghost use Rattle.phrases.specs.Parsers.{Reads};
ghost use Rattle.query_read.specs.Asked as asked;
ghost use Rattle.query_read.specs.Nodes as nodes;
ghost use Rattle.query_read.specs.ClauseParsers as spec;

use crate::clauses::{condition, groups, list, order};
use crate::expecting::expect;
use crate::fault::Fault;
use crate::grouping::Grouping;
use crate::sources::source;
use phrases::{Cursor, ReadError};
use query_trees::{Expr, Query, SelectList, SortKey, Source};
use sql_read::{Kind, Listing, Token, is_next};
use std::alloc::Global;

/// `[DISTINCT]`
#[tactic(auto, unfolding(crate::specs::ClauseParsers::distinct))]
fn distinct(tokens: &mut Cursor<'_, Token>) -> Result<Option<u32>, ReadError<Fault>>
    ensures { Reads (spec.distinct tokens.old) result tokens.new }
{
    if is_next(tokens, Kind::Distinct) {
        let t = expect(tokens, Kind::Distinct)?;
        Ok(Some(t.at))
    } else {
        Ok(None)
    }
}

/// `[";"]`
#[tactic(auto, unfolding(crate::specs::ClauseParsers::closed))]
fn closed(tokens: &mut Cursor<'_, Token>, q: Query) -> Result<Query, ReadError<Fault>>
    ensures { Reads (spec.closed q tokens.old) result tokens.new }
{
    if is_next(tokens, Kind::Semicolon) {
        expect(tokens, Kind::Semicolon)?;
        Ok(q)
    } else {
        Ok(q)
    }
}

fn query_of(
    s: Token,
    distinct: Option<u32>,
    list: SelectList,
    source: Source,
    filter: Option<Expr>,
    grouping: Grouping,
    order: Listing<SortKey>,
) -> Query
    ensures { result ≡ nodes.query_of s distinct list source filter grouping order }
{
    let Grouping { groups, having } = grouping;
    Query {
        at: s.at,
        distinct,
        list,
        source,
        filter,
        groups,
        having,
        order,
    }
}

/// A query, up to the first token that does not go on with it.
#[tactic(auto, unfolding(crate::specs::ClauseParsers::query_over))]
pub fn query(
    alloc: Global,
    text: &[u8],
    tokens: &mut Cursor<'_, Token>,
    levels: u8,
) -> Result<Query, ReadError<Fault>>
    ensures { Reads (spec.query asked.all text.now levels tokens.old) result tokens.new }
{
    let s = expect(tokens, Kind::Select)?;
    let distinct = distinct(tokens)?;
    let list = list(alloc, text, tokens, levels)?;
    expect(tokens, Kind::From)?;
    let source = source(alloc, text, tokens)?;
    let filter = condition(alloc, text, tokens, levels, Kind::Where)?;
    let grouping = groups(alloc, text, tokens, levels)?;
    let order = order(alloc, text, tokens)?;
    closed(
        tokens,
        query_of(s, distinct, list, source, filter, grouping, order),
    )
}
