//! The kinds of items.

ghost use Rattle.std.specs.Prelude.{◌≡◌, [], map, IfOk};
ghost use Rattle.typed_trees.specs.Kinds.{family_of, makes};
ghost use Rattle.answer_print.specs.Kinds as spec;

use crate::NoMemory;
use query_trees::BinaryOp;
use std::alloc::Global;
use typed_trees::{Aggregate, AggregateKind, Family, Kind, TypedExpr, family_of, kind_of};

/// The kinds of aggregates.
pub fn aggregate_kinds(alloc: Global, aggregates: &[Aggregate]) -> Result<Vec<Kind>, NoMemory>
    ensures { IfOk result (λ kinds. kinds.items ≡ spec.aggregate_kinds aggregates.now) }
{
    let mut kinds = Vec::with_capacity(alloc, aggregates.len())?;
    for a in aggregates {
        kinds.push(aggregate_kind(a))?;
    }
    Ok(kinds)
}

/// The kind of an aggregate's value.
fn aggregate_kind(a: &Aggregate) -> Kind
    ensures { result ≡ spec.aggregate_kind a.now }
{
    let Some(e) = &a.argument else {
        return Kind::Number;
    };
    match a.kind {
        AggregateKind::Min | AggregateKind::Max => kind_in(e, &[]),
        _ => Kind::Number,
    }
}

/// The kind of an expression's value, over aggregates of these kinds. The recursion is as deep as the expression.
#[tactic(auto, unfolding(crate::specs::Kinds::kind_in))]
pub fn kind_in(e: &TypedExpr, aggregates: &[Kind]) -> Kind
    ensures { result ≡ spec.kind_in aggregates.now e.now }
{
    match e {
        TypedExpr::Number(_, _) => Kind::Number,
        TypedExpr::Text(_) => Kind::Text,
        TypedExpr::Date(_) => Kind::Date,
        TypedExpr::Column(_, column) => kind_of(column.kind),
        TypedExpr::Aggregate(place, _) => kind_at(aggregates, *place),
        TypedExpr::Signed(_, _) => Kind::Number,
        TypedExpr::Binary(op, _, _) => made_by(*op),
        TypedExpr::Divide(_, _, _) => Kind::Number,
        TypedExpr::Coalesce(x, _) => kind_in(x.get(), aggregates),
        _ => Kind::Truth,
    }
}

/// The kind of the aggregate at a place.
fn kind_at(aggregates: &[Kind], place: u32) -> Kind
    ensures { result ≡ spec.kind_at aggregates.now place }
{
    match aggregates.get(place as usize) {
        Some(kind) => *kind,
        None => Kind::Number,
    }
}

/// The kind of what an operator gives.
fn made_by(op: BinaryOp) -> Kind
    ensures { result ≡ makes (family_of op) }
{
    match family_of(op) {
        Family::Arithmetic => Kind::Number,
        _ => Kind::Truth,
    }
}
