//! Whole queries.

ghost use Rattle.std.specs.Prelude.{◌≡◌, ◌≤◌, length};
ghost use Rattle.query_types.specs.Names.{IsNarrow, seen, on_rows};
ghost use Rattle.query_types.specs.Typing as spec;
ghost use Rattle.query_types.specs.Grouping.{is_grouped};
ghost use Rattle.query_types.specs.Outcomes.{Gives, Collects};

use crate::conjuncts::add_parts;
use crate::expr::condition;
use crate::groups::{groups_of, is_grouped};
use crate::items::{Shown, shown_of};
use crate::ordering::keys;
use crate::refusal::TypeRefusal;
use crate::scope::{Called, Level, Scope};
use crate::sources::{Tables, tables_of};
use query_trees::{Expr, Query};
use sql_read::{Listing, TableDef};
use sql_types::Catalog;
use std::alloc::Global;
use typed_trees::{Aggregate, ColumnRef, OrderKey, TypedExpr, TypedQuery};

/// The parts of WHERE's condition.
fn filter(
    alloc: Global,
    defs: &[TableDef],
    tables: &[Called],
    e: &Option<Expr>,
) -> Result<Listing<TypedExpr>, TypeRefusal>
    requires narrow { IsNarrow defs.now }
    requires few { length tables.now ≤ 8 }
    ensures { Gives (spec.filter (on_rows defs.now tables.now) e.now) result }
{
    let mut parts = Listing::new(alloc);
    if let Some(e) = e {
        let scope = Scope {
            defs,
            tables,
            level: Level::Row,
            groups: &[],
        };
        let mut none = Listing::new(alloc);
        let whole = condition(alloc, &scope, &mut none, e)?;
        add_parts(&mut parts, whole)?;
    }
    Ok(parts)
}

fn having(
    alloc: Global,
    scope: &Scope<'_>,
    aggregates: &mut Listing<Aggregate>,
    e: &Option<Expr>,
) -> Result<Option<TypedExpr>, TypeRefusal>
    requires narrow { IsNarrow scope.now.defs.now }
    requires few { length scope.now.tables.now ≤ 8 }
    ensures { Collects (spec.having (seen scope.now) e.now aggregates.old) result aggregates.new }
{
    match e {
        None => Ok(None),
        Some(e) => {
            let x = condition(alloc, scope, aggregates, e)?;
            Ok(Some(x))
        }
    }
}

/// The items, HAVING and ORDER BY.
struct Answered {
    shown: Shown,
    having: Option<TypedExpr>,
    aggregates: Listing<Aggregate>,
    order: Listing<OrderKey>,
}

impl Drop for Answered {
    fn drop(self) {
        let Answered {
            shown: _,
            having: _,
            aggregates: _,
            order: _,
        } = self;
    }
}

impl Answered {
    /// The same in this order.
    fn ordered(self, order: Listing<OrderKey>) -> Answered
        ensures { result ≡ spec.answered_with self.shown self.having self.aggregates order }
    {
        let Answered {
            shown,
            having,
            aggregates,
            order: _,
        } = self;
        Answered {
            shown,
            having,
            aggregates,
            order,
        }
    }

    /// The whole query.
    fn over(
        self,
        tables: Tables,
        filter: Listing<TypedExpr>,
        groups: Listing<ColumnRef>,
    ) -> TypedQuery
        ensures { result ≡ spec.query_of tables filter groups self }
    {
        let Answered {
            shown,
            having,
            aggregates,
            order,
        } = self;
        let (items, names) = shown.into_parts();
        TypedQuery {
            sources: tables.into_sources(),
            filter,
            groups,
            aggregates,
            having,
            items,
            order,
            names,
        }
    }
}

#[tactic(auto, unfolding(crate::specs::Typing::answer))]
fn answer(alloc: Global, scope: &Scope<'_>, q: &Query) -> Result<Answered, TypeRefusal>
    requires narrow { IsNarrow scope.now.defs.now }
    requires few { length scope.now.tables.now ≤ 8 }
    ensures { Gives (spec.answer (seen scope.now) q.now) result }
{
    let mut aggregates = Listing::new(alloc);
    let shown = shown_of(alloc, scope, &mut aggregates, &q.list)?;
    let having = having(alloc, scope, &mut aggregates, &q.having)?;
    let unordered = Answered {
        shown,
        having,
        aggregates,
        order: Listing::new(alloc),
    };
    let order = keys(
        alloc,
        scope,
        unordered.shown.names.as_slice(),
        q.order.as_slice(),
    )?;
    Ok(unordered.ordered(order))
}

/// The same on groups where the query is grouped, else on rows.
fn answer_over(
    alloc: Global,
    defs: &[TableDef],
    tables: &[Called],
    groups: &[ColumnRef],
    q: &Query,
) -> Result<Answered, TypeRefusal>
    requires narrow { IsNarrow defs.now }
    requires few { length tables.now ≤ 8 }
    ensures { Gives (spec.answer (spec.scope_of defs.now tables.now groups.now (is_grouped q.now)) q.now) result }
{
    if is_grouped(q) {
        let scope = Scope {
            defs,
            tables,
            level: Level::Group,
            groups,
        };
        answer(alloc, &scope, q)
    } else {
        let scope = Scope {
            defs,
            tables,
            level: Level::Row,
            groups: &[],
        };
        answer(alloc, &scope, q)
    }
}

#[tactic(auto, unfolding(crate::specs::Typing::typed_over))]
fn typed_over(
    alloc: Global,
    defs: &[TableDef],
    q: &Query,
    tables: Tables,
) -> Result<TypedQuery, TypeRefusal>
    requires narrow { IsNarrow defs.now }
    requires few { length tables.called ≤ 8 }
    ensures { Gives (spec.typed_over defs.now q.now tables) result }
{
    let filter = filter(alloc, defs, tables.called.as_slice(), &q.filter)?;
    let groups = groups_of(alloc, defs, tables.called.as_slice(), q)?;
    let rest = answer_over(alloc, defs, tables.called.as_slice(), groups.as_slice(), q)?;
    Ok(rest.over(tables, filter, groups))
}

#[tactic(auto, unfolding(crate::specs::Typing::typed_query))]
fn typed(alloc: Global, defs: &[TableDef], q: &Query) -> Result<TypedQuery, TypeRefusal>
    requires { IsNarrow defs.now }
    ensures { Gives (spec.typed_query q.now defs.now) result }
{
    let tables = tables_of(alloc, defs, &q.source)?;
    typed_over(alloc, defs, q, tables)
}

/// The query with its names resolved and its expressions typed, or the first refusal: from FROM on by WHERE, GROUP BY, the items and
/// HAVING to ORDER BY, operands before operators, from left to right.
///
/// The recursion is as deep as the deepest expression of the query: a chain of n operators is a tree of n levels, and a query that
/// was read has at most 2,048 tokens.
pub fn type_query(alloc: Global, q: &Query, c: &Catalog) -> Result<TypedQuery, TypeRefusal>
    // The answer is what the definition gives. Only want of memory is free.
    ensures { Gives (spec.typed_query q.now c.now) result }
{
    typed(alloc, c.defs(), q)
}
