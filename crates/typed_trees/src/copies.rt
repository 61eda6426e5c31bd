//! Copies of trees. Each fails only for want of memory.

ghost use Rattle.std.specs.Prelude.{◌≡◌, IfOk};

use crate::typed::{Aggregate, PlanSource, TypedExpr};
use io_edge::{Name, NoMemory};
use sql_read::Listing;
use sqlite_items::{Boxed, Items};
use std::alloc::Global;

#[cycle(copies)]
fn boxed(alloc: Global, e: &Boxed<TypedExpr>) -> Result<Boxed<TypedExpr>, NoMemory>
    ensures { IfOk result (λ c. c ≡ e.now) }
{
    Boxed::new(alloc, copied(alloc, e.get())?)
}

#[cycle(copies)]
fn items(alloc: Global, all: &[TypedExpr]) -> Result<Items<TypedExpr>, NoMemory>
    ensures { IfOk result (λ copies. copies ≡ all.now) }
{
    let mut copies = Items::new(alloc);
    for e in all {
        copies.push(copied(alloc, e)?)?;
    }
    Ok(copies)
}

/// The same expression again. The recursion is as deep as the expression.
#[cycle(copies)]
pub fn copied(alloc: Global, e: &TypedExpr) -> Result<TypedExpr, NoMemory>
    ensures { IfOk result (λ c. c ≡ e.now) }
{
    match e {
        TypedExpr::Number(n, scale) => Ok(TypedExpr::Number(*n, *scale)),
        TypedExpr::Text(text) => Ok(TypedExpr::Text(text.copied(alloc)?)),
        TypedExpr::Date(day) => Ok(TypedExpr::Date(*day)),
        TypedExpr::Column(c, t) => Ok(TypedExpr::Column(*c, *t)),
        TypedExpr::Aggregate(place, scale) => Ok(TypedExpr::Aggregate(*place, *scale)),
        TypedExpr::Signed(sign, x) => Ok(TypedExpr::Signed(*sign, boxed(alloc, x)?)),
        TypedExpr::Not(x) => Ok(TypedExpr::Not(boxed(alloc, x)?)),
        TypedExpr::Binary(op, x, y) => {
            let left = boxed(alloc, x)?;
            let right = boxed(alloc, y)?;
            Ok(TypedExpr::Binary(*op, left, right))
        }
        TypedExpr::Divide(x, sign, digits) => {
            Ok(TypedExpr::Divide(boxed(alloc, x)?, *sign, *digits))
        }
        TypedExpr::Between(polarity, x, y, z) => {
            let of = boxed(alloc, x)?;
            let low = boxed(alloc, y)?;
            let high = boxed(alloc, z)?;
            Ok(TypedExpr::Between(*polarity, of, low, high))
        }
        TypedExpr::In(polarity, x, ys) => {
            let of = boxed(alloc, x)?;
            let values = items(alloc, ys.as_slice())?;
            Ok(TypedExpr::In(*polarity, of, values))
        }
        TypedExpr::IsNull(polarity, x) => Ok(TypedExpr::IsNull(*polarity, boxed(alloc, x)?)),
        TypedExpr::Coalesce(x, ys) => {
            let first = boxed(alloc, x)?;
            let others = items(alloc, ys.as_slice())?;
            Ok(TypedExpr::Coalesce(first, others))
        }
    }
}

/// The same expressions again, in order.
pub fn copied_all(alloc: Global, all: &[TypedExpr]) -> Result<Listing<TypedExpr>, NoMemory>
    ensures { IfOk result (λ copies. copies ≡ all.now) }
{
    let mut copies = Listing::new(alloc);
    for e in all {
        copies.push(copied(alloc, e)?)?;
    }
    Ok(copies)
}

/// The same expression again, where there is one.
pub fn copied_option(alloc: Global, e: &Option<TypedExpr>) -> Result<Option<TypedExpr>, NoMemory>
    ensures { IfOk result (λ c. c ≡ e.now) }
{
    match e {
        None => Ok(None),
        Some(e) => Ok(Some(copied(alloc, e)?)),
    }
}

/// The same plain values again, in order.
pub fn copied_plain<T: Copy>(alloc: Global, all: &[T]) -> Result<Listing<T>, NoMemory>
    ensures { IfOk result (λ copies. copies ≡ all.now) }
{
    let items = Vec::from_slice(alloc, all)?;
    Ok(Listing::from_vec(items))
}

/// The same names again, in order.
pub fn copied_names(alloc: Global, all: &[Name]) -> Result<Listing<Name>, NoMemory>
    ensures { IfOk result (λ copies. copies ≡ all.now) }
{
    let mut copies = Listing::new(alloc);
    for name in all {
        copies.push(name.copied(alloc)?)?;
    }
    Ok(copies)
}

/// The same aggregate again.
pub fn copied_aggregate(alloc: Global, a: &Aggregate) -> Result<Aggregate, NoMemory>
    ensures { IfOk result (λ c. c ≡ a.now) }
{
    Ok(Aggregate {
        kind: a.kind,
        argument: copied_option(alloc, &a.argument)?,
    })
}

/// The same aggregates again, in order.
pub fn copied_aggregates(alloc: Global, all: &[Aggregate]) -> Result<Listing<Aggregate>, NoMemory>
    ensures { IfOk result (λ copies. copies ≡ all.now) }
{
    let mut copies = Listing::new(alloc);
    for a in all {
        copies.push(copied_aggregate(alloc, a)?)?;
    }
    Ok(copies)
}

/// The same table of FROM again.
pub fn copied_source(alloc: Global, s: &PlanSource) -> Result<PlanSource, NoMemory>
    ensures { IfOk result (λ c. c ≡ s.now) }
{
    let columns = copied_plain(alloc, s.columns.as_slice())?;
    let filter = copied_all(alloc, s.filter.as_slice())?;
    Ok(PlanSource {
        table: s.table,
        columns,
        filter,
        join: s.join,
    })
}

/// The same tables of FROM again, in order.
pub fn copied_sources(alloc: Global, all: &[PlanSource]) -> Result<Listing<PlanSource>, NoMemory>
    ensures { IfOk result (λ copies. copies ≡ all.now) }
{
    let mut copies = Listing::new(alloc);
    for s in all {
        copies.push(copied_source(alloc, s)?)?;
    }
    Ok(copies)
}
