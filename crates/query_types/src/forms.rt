//! Each form of an expression, over its typed operands.

ghost use Rattle.std.specs.Prelude.{◌≡◌, ◌≤◌, length};
ghost use Rattle.std.specs.List.{list_all};
ghost use Rattle.query_types.specs.Expressions as spec;
ghost use Rattle.query_types.specs.Names.{IsNarrow, seen};
ghost use Rattle.query_types.specs.Outcomes.{Gives, Collects};

use crate::kinds::{compare, folds, is_number, is_truth, makes, takes};
use crate::names::column;
use crate::outcome::refusal;
use crate::refusal::{TypeKind, TypeRefusal};
use crate::scales::{binary_scale, fits_scale, greatest, scale_folded};
use crate::scope::{Level, Scope};
use crate::typing::{Typed, boxed};
use io_edge::Name;
use query_trees::{AggregateKind as Written, BinaryOp, ColumnName, Divisor, Polarity, Sign};
use sql_read::Listing;
use sqlite_items::Items;
use std::alloc::Global;
use typed_trees::{Aggregate, AggregateKind, Kind, Role, TypedExpr, family_of, kind_of};

/// A text literal, which stands only as a side.
pub fn literal(alloc: Global, role: Role, text: &Name, at: u32) -> Result<Typed, TypeRefusal>
    ensures { Gives (spec.literal role text.now at) result }
{
    match role {
        Role::Side => {
            let text = text.copied(alloc)?;
            Ok(Typed {
                value: TypedExpr::Text(text),
                kind: Kind::Text,
                scale: 0,
            })
        }
        Role::Alone => Err(refusal(TypeKind::TypesDiffer, at)),
    }
}

#[tactic(auto, unfolding(crate::specs::Expressions::named))]
pub fn named(scope: &Scope<'_>, c: &ColumnName) -> Result<Typed, TypeRefusal>
    requires narrow { IsNarrow scope.now.defs.now }
    requires few { length scope.now.tables.now ≤ 8 }
    ensures { Gives (spec.named (seen scope.now) c.now) result }
{
    let found = column(scope, c)?;
    Ok(Typed {
        value: TypedExpr::Column(found.column, found.type_),
        kind: kind_of(found.type_.kind),
        scale: found.type_.scale,
    })
}

#[tactic(auto, unfolding(crate::specs::Expressions::signed))]
pub fn signed(alloc: Global, sign: Sign, at: u32, a: Typed) -> Result<Typed, TypeRefusal>
    ensures { Gives (spec.signed sign at a) result }
{
    if !is_number(a.kind) {
        return Err(refusal(TypeKind::TypesDiffer, at));
    }
    let scale = a.scale;
    Ok(Typed {
        value: TypedExpr::Signed(sign, boxed(alloc, a)?),
        kind: Kind::Number,
        scale,
    })
}

#[tactic(auto, unfolding(crate::specs::Expressions::negated))]
pub fn negated(alloc: Global, at: u32, a: Typed) -> Result<Typed, TypeRefusal>
    ensures { Gives (spec.negated at a) result }
{
    if !is_truth(a.kind) {
        return Err(refusal(TypeKind::TypesDiffer, at));
    }
    Ok(Typed {
        value: TypedExpr::Not(boxed(alloc, a)?),
        kind: Kind::Truth,
        scale: 0,
    })
}

#[tactic(auto, unfolding(crate::specs::Expressions::binary))]
pub fn binary(
    alloc: Global,
    op: BinaryOp,
    at: u32,
    a: Typed,
    b: Typed,
) -> Result<Typed, TypeRefusal>
    ensures { Gives (spec.binary op at a b) result }
{
    let family = family_of(op);
    if !takes(family, a.kind, b.kind) {
        return Err(refusal(TypeKind::TypesDiffer, at));
    }
    if !fits_scale(op, a.scale, b.scale) {
        return Err(refusal(TypeKind::ScaleTooLarge, at));
    }
    let scale = binary_scale(op, a.scale, b.scale);
    let left = boxed(alloc, a)?;
    let right = boxed(alloc, b)?;
    Ok(Typed {
        value: TypedExpr::Binary(op, left, right),
        kind: makes(family),
        scale,
    })
}

fn sign_or_plus(sign: Option<Sign>) -> Sign
    ensures { result ≡ spec.sign_or_plus sign }
{
    match sign {
        Some(s) => s,
        None => Sign::Plus,
    }
}

#[tactic(auto, unfolding(crate::specs::Expressions::divided))]
pub fn divided(alloc: Global, at: u32, a: Typed, by: Divisor) -> Result<Typed, TypeRefusal>
    ensures { Gives (spec.divided at a by) result }
{
    if by.value == 0 {
        return Err(refusal(TypeKind::ZeroDivisor, by.value_at));
    }
    if !is_number(a.kind) {
        return Err(refusal(TypeKind::TypesDiffer, at));
    }
    let scale = a.scale;
    let of = boxed(alloc, a)?;
    Ok(Typed {
        value: TypedExpr::Divide(of, sign_or_plus(by.sign), by.value),
        kind: Kind::Number,
        scale,
    })
}

#[tactic(auto, unfolding(crate::specs::Expressions::between))]
pub fn between(
    alloc: Global,
    polarity: Polarity,
    at: u32,
    a: Typed,
    low: Typed,
    high: Typed,
) -> Result<Typed, TypeRefusal>
    ensures { Gives (spec.between polarity at a low high) result }
{
    if !(compare(a.kind, low.kind) && compare(a.kind, high.kind)) {
        return Err(refusal(TypeKind::TypesDiffer, at));
    }
    let of = boxed(alloc, a)?;
    let low = boxed(alloc, low)?;
    let high = boxed(alloc, high)?;
    Ok(Typed {
        value: TypedExpr::Between(polarity, of, low, high),
        kind: Kind::Truth,
        scale: 0,
    })
}

fn all_compare(kind: Kind, ts: &[Typed]) -> bool
    ensures { result ≡ list_all (spec.compares_with kind) ts.now }
{
    ts.iter().all(|t| compare(kind, t.kind))
}

fn values(alloc: Global, ts: Listing<Typed>) -> Result<Items<TypedExpr>, TypeRefusal>
    ensures { Gives (Ok (spec.values ts)) result }
{
    let mut values = Items::new(alloc);
    for t in ts.into_vec() {
        values.push(t.into_value())?;
    }
    Ok(values)
}

#[tactic(auto, unfolding(crate::specs::Expressions::among))]
pub fn among(
    alloc: Global,
    polarity: Polarity,
    at: u32,
    a: Typed,
    ts: Listing<Typed>,
) -> Result<Typed, TypeRefusal>
    ensures { Gives (spec.among polarity at a ts) result }
{
    if !all_compare(a.kind, ts.as_slice()) {
        return Err(refusal(TypeKind::TypesDiffer, at));
    }
    let of = boxed(alloc, a)?;
    let values = values(alloc, ts)?;
    Ok(Typed {
        value: TypedExpr::In(polarity, of, values),
        kind: Kind::Truth,
        scale: 0,
    })
}

#[tactic(auto, unfolding(crate::specs::Expressions::null_test))]
pub fn null_test(alloc: Global, polarity: Polarity, at: u32, a: Typed) -> Result<Typed, TypeRefusal>
    ensures { Gives (spec.null_test polarity at a) result }
{
    if is_truth(a.kind) {
        return Err(refusal(TypeKind::TypesDiffer, at));
    }
    Ok(Typed {
        value: TypedExpr::IsNull(polarity, boxed(alloc, a)?),
        kind: Kind::Truth,
        scale: 0,
    })
}

#[tactic(auto, unfolding(crate::specs::Expressions::choice))]
pub fn choice(alloc: Global, at: u32, a: Typed, ts: Listing<Typed>) -> Result<Typed, TypeRefusal>
    ensures { Gives (spec.choice at a ts) result }
{
    if !(compare(a.kind, a.kind) && all_compare(a.kind, ts.as_slice())) {
        return Err(refusal(TypeKind::TypesDiffer, at));
    }
    let kind = a.kind;
    let scale = greatest(a.scale, ts.as_slice());
    let first = boxed(alloc, a)?;
    let others = values(alloc, ts)?;
    Ok(Typed {
        value: TypedExpr::Coalesce(first, others),
        kind,
        scale,
    })
}

fn aggregate_kind(of: Written) -> AggregateKind
    ensures { result ≡ spec.aggregate_kind of }
{
    match of {
        Written::Count => AggregateKind::Count,
        Written::Sum => AggregateKind::Sum,
        Written::Min => AggregateKind::Min,
        Written::Max => AggregateKind::Max,
        Written::Avg => AggregateKind::Avg,
    }
}

fn kind_folded(of: Written, a: Kind) -> Kind
    ensures { result ≡ spec.kind_folded of a }
{
    match of {
        Written::Count | Written::Sum | Written::Avg => Kind::Number,
        _ => a,
    }
}

fn is_row(level: Level) -> bool
    ensures { result ≡ spec.is_row level }
{
    match level {
        Level::Row => true,
        Level::Group => false,
    }
}

/// One more aggregate. A list of 2^32 has no room for it.
fn met(
    aggregates: &mut Listing<Aggregate>,
    kind: Kind,
    scale: u32,
    a: Aggregate,
) -> Result<Typed, TypeRefusal>
    ensures { Collects (spec.met kind scale a aggregates.old) result aggregates.new }
{
    let place = aggregates.len();
    if place >= 4294967296 {
        return Err(TypeRefusal::NoMemory);
    }
    aggregates.push(a)?;
    Ok(Typed {
        value: TypedExpr::Aggregate(place as u32, scale),
        kind,
        scale,
    })
}

#[tactic(auto, unfolding(crate::specs::Expressions::counted))]
pub fn counted(
    aggregates: &mut Listing<Aggregate>,
    level: Level,
    at: u32,
) -> Result<Typed, TypeRefusal>
    ensures { Collects (spec.counted level at aggregates.old) result aggregates.new }
{
    if is_row(level) {
        return Err(refusal(TypeKind::NestedAggregate, at));
    }
    let counting = Aggregate {
        kind: AggregateKind::Count,
        argument: None,
    };
    met(aggregates, Kind::Number, 0, counting)
}

#[tactic(auto, unfolding(crate::specs::Expressions::folded))]
pub fn folded(
    aggregates: &mut Listing<Aggregate>,
    level: Level,
    of: Written,
    at: u32,
    a: Typed,
) -> Result<Typed, TypeRefusal>
    ensures { Collects (spec.folded level of at a aggregates.old) result aggregates.new }
{
    if !folds(of, a.kind) {
        return Err(refusal(TypeKind::TypesDiffer, at));
    }
    if is_row(level) {
        return Err(refusal(TypeKind::NestedAggregate, at));
    }
    let kind = kind_folded(of, a.kind);
    let scale = scale_folded(of, a.scale);
    let folding = Aggregate {
        kind: aggregate_kind(of),
        argument: Some(a.into_value()),
    };
    met(aggregates, kind, scale, folding)
}
