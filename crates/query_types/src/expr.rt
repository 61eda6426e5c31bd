//! Expressions.

ghost use Rattle.std.specs.Prelude.{◌≡◌, ◌≤◌, [], length, map};
ghost use Rattle.std.specs.List.{list_any};
ghost use Rattle.std.specs.Option.{option_copied};
ghost use Rattle.query_types.specs.Expressions as spec;
ghost use Rattle.query_types.specs.Names.{IsNarrow, seen, inside};
ghost use Rattle.query_types.specs.Outcomes.{Collects};

use crate::forms::{
    among, between, binary, choice, counted, divided, folded, literal, named, negated, null_test,
    signed,
};
use crate::kinds::is_truth;
use crate::outcome::refusal;
use crate::refusal::{TypeKind, TypeRefusal};
use crate::scope::{Level, Scope};
use crate::typing::Typed;
use query_trees::{ColumnName, Expr, Form};
use sql_read::Listing;
use std::alloc::Global;
use typed_trees::{Aggregate, Kind, Role, TypedExpr, family_of, role_in};

/// The same scope inside an aggregate.
fn inside<'a>(scope: &Scope<'a>) -> Scope<'a>
    ensures { seen result ≡ inside (seen scope.now) }
{
    Scope {
        level: Level::Row,
        groups: &[],
        ..*scope
    }
}

/// Expressions that each stand so, from left to right.
#[cycle(typing)]
fn each(
    alloc: Global,
    scope: &Scope<'_>,
    aggregates: &mut Listing<Aggregate>,
    role: Role,
    items: &[Expr],
) -> Result<Listing<Typed>, TypeRefusal>
    requires narrow { IsNarrow scope.now.defs.now }
    requires few { length scope.now.tables.now ≤ 8 }
    ensures { Collects (spec.each (seen scope.now) role [] (map spec.typer items.now) aggregates.old) result aggregates.new }
{
    let mut all = Listing::new(alloc);
    for x in items {
        let t = expr(alloc, scope, aggregates, role, x)?;
        all.push(t)?;
    }
    Ok(all)
}

/// An expression where it stands. The recursion is as deep as the tree: a chain of n operators is n levels deep.
#[cycle(typing)]
pub fn expr(
    alloc: Global,
    scope: &Scope<'_>,
    aggregates: &mut Listing<Aggregate>,
    role: Role,
    e: &Expr,
) -> Result<Typed, TypeRefusal>
    requires narrow { IsNarrow scope.now.defs.now }
    requires few { length scope.now.tables.now ≤ 8 }
    ensures { Collects (spec.typer e.now (seen scope.now) role aggregates.old) result aggregates.new }
{
    match e.form.get() {
        Form::Number(n, scale) => Ok(Typed {
            value: TypedExpr::Number(*n, *scale),
            kind: Kind::Number,
            scale: *scale,
        }),
        Form::Text(text) => literal(alloc, role, text, e.at),
        Form::Date(day) => Ok(Typed {
            value: TypedExpr::Date(*day),
            kind: Kind::Date,
            scale: 0,
        }),
        Form::Column(c) => named(scope, c),
        Form::CountAll => counted(aggregates, scope.level, e.at),
        Form::Aggregate(of, x) => {
            let a = expr(alloc, &inside(scope), aggregates, Role::Alone, x)?;
            folded(aggregates, scope.level, *of, e.at, a)
        }
        Form::Enclosed(x) => expr(alloc, scope, aggregates, role, x),
        Form::Signed(sign, x) => {
            let a = expr(alloc, scope, aggregates, Role::Alone, x)?;
            signed(alloc, *sign, e.at, a)
        }
        Form::Not(x) => {
            let a = expr(alloc, scope, aggregates, Role::Alone, x)?;
            negated(alloc, e.at, a)
        }
        Form::Binary(op, at, x, y) => {
            let side = role_in(family_of(*op));
            let a = expr(alloc, scope, aggregates, side, x)?;
            let b = expr(alloc, scope, aggregates, side, y)?;
            binary(alloc, *op, *at, a, b)
        }
        Form::Divide(at, x, by) => {
            let a = expr(alloc, scope, aggregates, Role::Alone, x)?;
            divided(alloc, *at, a, *by)
        }
        Form::Between(polarity, at, x, y, z) => {
            let a = expr(alloc, scope, aggregates, Role::Side, x)?;
            let low = expr(alloc, scope, aggregates, Role::Side, y)?;
            let high = expr(alloc, scope, aggregates, Role::Side, z)?;
            between(alloc, *polarity, *at, a, low, high)
        }
        Form::In(polarity, at, x, ys) => {
            let a = expr(alloc, scope, aggregates, Role::Side, x)?;
            let ts = each(alloc, scope, aggregates, Role::Side, ys.as_slice())?;
            among(alloc, *polarity, *at, a, ts)
        }
        Form::IsNull(polarity, at, x) => {
            let a = expr(alloc, scope, aggregates, Role::Alone, x)?;
            null_test(alloc, *polarity, *at, a)
        }
        Form::Coalesce(x, ys) => {
            let a = expr(alloc, scope, aggregates, Role::Alone, x)?;
            let ts = each(alloc, scope, aggregates, Role::Alone, ys.as_slice())?;
            choice(alloc, e.at, a, ts)
        }
    }
}

/// A condition, which is a truth.
#[tactic(auto, unfolding(crate::specs::Expressions::condition))]
pub fn condition(
    alloc: Global,
    scope: &Scope<'_>,
    aggregates: &mut Listing<Aggregate>,
    e: &Expr,
) -> Result<TypedExpr, TypeRefusal>
    requires narrow { IsNarrow scope.now.defs.now }
    requires few { length scope.now.tables.now ≤ 8 }
    ensures { Collects (spec.condition (seen scope.now) e.now aggregates.old) result aggregates.new }
{
    let t = expr(alloc, scope, aggregates, Role::Alone, e)?;
    if !is_truth(t.kind) {
        return Err(refusal(TypeKind::TypesDiffer, e.at));
    }
    Ok(t.into_value())
}

#[cycle(has_aggregate)]
fn any_aggregate(items: &[Expr]) -> bool
    ensures { result ≡ list_any (λ x. spec.has_aggregate x) items.now }
{
    for x in items {
        if has_aggregate(x) {
            return true;
        }
    }
    false
}

/// Whether an aggregate is written in an expression.
#[cycle(has_aggregate)]
#[tactic(auto, unfolding(crate::specs::Expressions::has_aggregate))]
pub fn has_aggregate(e: &Expr) -> bool
    ensures { result ≡ spec.has_aggregate e.now }
{
    match e.form.get() {
        Form::CountAll | Form::Aggregate(..) => true,
        Form::Number(..) | Form::Text(_) | Form::Date(_) | Form::Column(_) => false,
        Form::Enclosed(x)
        | Form::Signed(_, x)
        | Form::Not(x)
        | Form::Divide(_, x, _)
        | Form::IsNull(_, _, x) => has_aggregate(x),
        Form::Binary(_, _, x, y) => has_aggregate(x) || has_aggregate(y),
        Form::Between(_, _, x, y, z) => {
            has_aggregate(x) || (has_aggregate(y) || has_aggregate(z))
        }
        Form::In(_, _, x, ys) => has_aggregate(x) || any_aggregate(ys.as_slice()),
        Form::Coalesce(x, ys) => has_aggregate(x) || any_aggregate(ys.as_slice()),
    }
}

/// The column that an expression is, in parentheses or not.
#[tactic(auto, unfolding(crate::specs::Expressions::column_alone))]
pub fn column_alone(e: &Expr) -> Option<&ColumnName>
    ensures { option_copied result ≡ spec.column_alone e.now }
{
    match e.form.get() {
        Form::Column(c) => Some(c),
        Form::Enclosed(x) => column_alone(x),
        _ => None,
    }
}
