//! What an expression names.

ghost use Rattle.std.specs.Prelude.{◌≡◌};
ghost use Rattle.std.specs.List.{list_any};
ghost use Rattle.typed_trees.specs.Names as spec;

use crate::typed::{ColumnRef, TypedExpr};

/// What is looked for in an expression.
#[derive(Clone, Copy)]
pub enum Wanted {
    /// A column of this source.
    ColumnOf(u32),
    /// This column.
    Column(ColumnRef),
    /// This aggregate, by its place in the query's list.
    Aggregate(u32),
}

pub fn same_column(a: ColumnRef, b: ColumnRef) -> bool
    ensures { result ≡ spec.same_column a b }
{
    a.source == b.source && a.column == b.column
}

fn is_wanted_column(wanted: Wanted, c: ColumnRef) -> bool
    ensures { result ≡ spec.wants_column wanted c }
{
    match wanted {
        Wanted::ColumnOf(source) => source == c.source,
        Wanted::Column(column) => same_column(column, c),
        Wanted::Aggregate(_) => false,
    }
}

fn is_wanted_aggregate(wanted: Wanted, place: u32) -> bool
    ensures { result ≡ spec.wants_aggregate wanted place }
{
    match wanted {
        Wanted::Aggregate(n) => n == place,
        _ => false,
    }
}

/// Whether one of these expressions names what is wanted.
#[cycle(names)]
pub fn any_names(all: &[TypedExpr], wanted: Wanted) -> bool
    ensures { result ≡ list_any (spec.names wanted) all.now }
{
    for e in all {
        if names(e, wanted) {
            return true;
        }
    }
    false
}

/// Whether an expression, or a part of it, names what is wanted. The recursion is as deep as the expression.
#[cycle(names)]
#[tactic(auto, unfolding(crate::specs::Names::names_any))]
pub fn names(e: &TypedExpr, wanted: Wanted) -> bool
    ensures { result ≡ spec.names wanted e.now }
{
    match e {
        TypedExpr::Number(..) | TypedExpr::Text(_) | TypedExpr::Date(_) => false,
        TypedExpr::Column(c, _) => is_wanted_column(wanted, *c),
        TypedExpr::Aggregate(place, _) => is_wanted_aggregate(wanted, *place),
        TypedExpr::Signed(_, x)
        | TypedExpr::Not(x)
        | TypedExpr::Divide(x, _, _)
        | TypedExpr::IsNull(_, x) => names(x.get(), wanted),
        TypedExpr::Binary(_, x, y) => names(x.get(), wanted) || names(y.get(), wanted),
        TypedExpr::Between(_, x, y, z) => {
            names(x.get(), wanted) || (names(y.get(), wanted) || names(z.get(), wanted))
        }
        TypedExpr::In(_, x, ys) => names(x.get(), wanted) || any_names(ys.as_slice(), wanted),
        TypedExpr::Coalesce(x, ys) => { names(x.get(), wanted) || any_names(ys.as_slice(), wanted) }
    }
}
