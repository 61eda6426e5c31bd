//! The interval of an expression.

ghost use Rattle.std.specs.Prelude.{◌≡◌, ◌&&◌, is_some, map};
ghost use Rattle.std.specs.List.{fold, list_all};
ghost use Rattle.typed_values.specs.Bounds as rule;
ghost use Rattle.typed_values.specs.Intervals.{truth};
ghost use Rattle.typed_values.specs.Narrow as spec;

use crate::intervals::{
    Interval, combined_interval, date, divisor, from_to, hull, literal, of_type, quotient_interval,
    raised, signed_interval,
};
use crate::scales::{greatest_scale, scale};
use query_trees::{BinaryOp, Sign};
use typed_trees::TypedExpr;

/// What the numbers of an expression may be, and their scale.
#[derive(Clone, Copy)]
pub struct Bounded {
    pub interval: Interval,
    pub scale: u32,
}

/// An interval at a scale that a query can have.
fn limited(scale: u32, a: Option<Interval>) -> Option<Bounded>
    ensures { result ≡ spec.limited scale a }
{
    match a {
        Some(interval) if scale <= 36 => Some(Bounded { interval, scale }),
        _ => None,
    }
}

fn truth_if(is_bounded: bool) -> Option<Bounded>
    ensures { result ≡ spec.truth_if is_bounded }
{
    if is_bounded {
        Some(Bounded {
            interval: from_to(0, 1),
            scale: 0,
        })
    } else {
        None
    }
}

fn signed_bounds(sign: Sign, a: Option<Bounded>) -> Option<Bounded>
    ensures { result ≡ spec.signed_bounds sign a }
{
    match a {
        None => None,
        Some(a) => limited(a.scale, signed_interval(sign, a.interval)),
    }
}

/// The interval of an operand that is rescaled.
fn at_scale(to: u32, a: Option<Bounded>) -> Option<Interval>
    ensures { result ≡ spec.at_scale to a }
{
    match a {
        None => None,
        Some(a) => raised(to.saturating_sub(a.scale), a.interval),
    }
}

fn combined_bounds(op: BinaryOp, a: Option<Interval>, b: Option<Interval>) -> Option<Interval>
    ensures { result ≡ spec.combined_bounds op a b }
{
    match (a, b) {
        (Some(a), Some(b)) => combined_interval(op, a, b),
        _ => None,
    }
}

/// A sum and a difference.
fn sum_bounds(op: BinaryOp, a: Bounded, b: Bounded) -> Option<Bounded>
    ensures { result ≡ spec.sum_bounds op a b }
{
    let to = a.scale.max(b.scale);
    limited(
        to,
        combined_bounds(op, at_scale(to, Some(a)), at_scale(to, Some(b))),
    )
}

fn product_bounds(a: Bounded, b: Bounded) -> Option<Bounded>
    ensures { result ≡ spec.product_bounds a b }
{
    let product = combined_interval(BinaryOp::Multiply, a.interval, b.interval);
    limited(a.scale.saturating_add(b.scale), product)
}

/// Whether both operands have an interval at the greater scale of the two.
fn are_alike(a: Bounded, b: Bounded) -> bool
    ensures { result ≡ spec.are_alike a b }
{
    let to = a.scale.max(b.scale);
    at_scale(to, Some(a)).is_some() && at_scale(to, Some(b)).is_some()
}

fn comparable(a: Option<Bounded>, b: Option<Bounded>) -> bool
    ensures { result ≡ spec.comparable a b }
{
    match (a, b) {
        (Some(a), Some(b)) => are_alike(a, b),
        _ => false,
    }
}

fn both_bounded(op: BinaryOp, a: Bounded, b: Bounded) -> Option<Bounded>
    ensures { result ≡ spec.both_bounded op a b }
{
    match op {
        BinaryOp::Or | BinaryOp::And => truth_if(true),
        BinaryOp::Add | BinaryOp::Subtract => sum_bounds(op, a, b),
        BinaryOp::Multiply => product_bounds(a, b),
        _ => truth_if(are_alike(a, b)),
    }
}

fn binary_bounds(op: BinaryOp, a: Option<Bounded>, b: Option<Bounded>) -> Option<Bounded>
    ensures { result ≡ spec.binary_bounds op a b }
{
    match (a, b) {
        (Some(a), Some(b)) => both_bounded(op, a, b),
        _ => None,
    }
}

fn quotient_bounds(a: Option<Bounded>, by: Option<i128>) -> Option<Bounded>
    ensures { result ≡ spec.quotient_bounds a by }
{
    match (a, by) {
        (Some(a), Some(d)) => limited(a.scale, quotient_interval(a.interval, d)),
        _ => None,
    }
}

fn between_bounds(x: Option<Bounded>, a: Option<Bounded>, b: Option<Bounded>) -> Option<Bounded>
    ensures { result ≡ spec.truth_if (spec.comparable x a && spec.comparable x b) }
{
    truth_if(comparable(x, a) && comparable(x, b))
}

#[cycle(interval_rule)]
fn all_comparable(x: Option<Bounded>, others: &[TypedExpr]) -> bool
    ensures { result ≡ (is_some x && list_all (λ y. spec.comparable x (spec.bounds y)) others.now) }
{
    if x.is_none() {
        return false;
    }
    for y in others {
        if !comparable(x, bounds_of(y)) {
            return false;
        }
    }
    true
}

/// The least interval around all operands, each at this scale.
#[cycle(interval_rule)]
fn chosen_bounds(to: u32, x: Option<Bounded>, others: &[TypedExpr]) -> Option<Bounded>
    ensures { result ≡ spec.limited to (fold rule.hull (spec.at_scale to x) (map (λ y. spec.at_scale to (spec.bounds y)) others.now)) }
{
    let mut all = at_scale(to, x);
    for y in others {
        all = hull(all, at_scale(to, bounds_of(y)));
    }
    limited(to, all)
}

/// The interval of an expression and its scale, none where the interval of a part leaves 128 bits.
#[cycle(interval_rule)]
#[tactic(auto, using(crate::proofs::Ranges::bounds_forms))]
fn bounds_of(e: &TypedExpr) -> Option<Bounded>
    ensures { result ≡ spec.bounds e.now }
{
    match e {
        TypedExpr::Number(n, scale) => limited(*scale, literal(*n)),
        TypedExpr::Text(_) => limited(0, Some(from_to(0, 4294967295))),
        TypedExpr::Date(day) => limited(0, date(*day)),
        TypedExpr::Column(_, column) => limited(column.scale, of_type(*column)),
        TypedExpr::Aggregate(_, _) => None,
        TypedExpr::Signed(sign, x) => signed_bounds(*sign, bounds_of(x.get())),
        TypedExpr::Not(x) => truth_if(bounds_of(x.get()).is_some()),
        TypedExpr::Binary(op, x, y) => binary_bounds(*op, bounds_of(x.get()), bounds_of(y.get())),
        TypedExpr::Divide(x, sign, digits) => quotient_bounds(
            bounds_of(x.get()),
            divisor(*sign, *digits),
        ),
        TypedExpr::Between(_, x, a, b) => between_bounds(
            bounds_of(x.get()),
            bounds_of(a.get()),
            bounds_of(b.get()),
        ),
        TypedExpr::In(_, x, others) => truth_if(all_comparable(
            bounds_of(x.get()),
            others.as_slice(),
        )),
        TypedExpr::IsNull(_, x) => truth_if(bounds_of(x.get()).is_some()),
        TypedExpr::Coalesce(x, others) => {
            let to = greatest_scale(scale(x.get()), others.as_slice());
            chosen_bounds(to, bounds_of(x.get()), others.as_slice())
        }
    }
}

/// The least and the greatest that an expression can be, by the ends of its columns and literals alone: none where an interval of a part leaves 128 bits.
///
/// It is none of an expression with an aggregate, whose values have no ends of their own. The recursion is as deep as the expression.
pub fn bounds(e: &TypedExpr) -> Option<Interval>
    ensures { result ≡ rule.bounds e.now }
{
    match bounds_of(e) {
        None => None,
        Some(found) => Some(found.interval),
    }
}

/// Whether no value of an expression, nor of any part of it, can leave 128 bits, by the ends of its columns and literals alone.
///
/// It is false of an expression with an aggregate. The recursion is as deep as the expression.
#[tactic(auto, using(crate::proofs::FoundParts::found_where_narrow))]
pub fn cannot_overflow(e: &TypedExpr) -> bool
    ensures { result ≡ rule.cannot_overflow e.now }
{
    bounds_of(e).is_some()
}
