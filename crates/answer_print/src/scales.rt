//! The scale of an expression, as far as queries have one.

ghost use Rattle.std.specs.Prelude.{◌≡◌, map};
ghost use Rattle.typed_trees.specs.Scales.{binary_scale, greatest, scale_of};
ghost use Rattle.typed_values.specs.Narrow.{counted};

use query_trees::BinaryOp;
use typed_trees::TypedExpr;

fn counted(scale: u32) -> u32
    ensures { result ≡ counted scale }
{
    scale.min(37)
}

/// The scale of a number that two others give.
fn binary_scale(op: BinaryOp, s: u32, t: u32) -> u32
    ensures { result ≡ counted (binary_scale op s t) }
{
    match op {
        BinaryOp::Add | BinaryOp::Subtract => counted(s.max(t)),
        BinaryOp::Multiply => counted(s.saturating_add(t)),
        _ => 0,
    }
}

/// The greatest of a scale and those of some expressions.
#[cycle(scales)]
pub fn greatest_scale(first: u32, others: &[TypedExpr]) -> u32
    ensures { result ≡ counted (greatest first (map scale_of others.now)) }
{
    let mut most = counted(first);
    for y in others {
        most = most.max(scale(y));
    }
    counted(most)
}

/// The scale of an expression, and 37 where it is more: no query has one of more than 36.
#[cycle(scales)]
#[tactic(auto, unfolding(typed_trees::specs::Scales::scale_of))]
pub fn scale(e: &TypedExpr) -> u32
    ensures { result ≡ counted (scale_of e.now) }
{
    match e {
        TypedExpr::Number(_, scale) => counted(*scale),
        TypedExpr::Column(_, column) => counted(column.scale),
        TypedExpr::Aggregate(_, scale) => counted(*scale),
        TypedExpr::Signed(_, x) => scale(x.get()),
        TypedExpr::Binary(op, x, y) => binary_scale(*op, scale(x.get()), scale(y.get())),
        TypedExpr::Divide(x, _, _) => scale(x.get()),
        TypedExpr::Coalesce(x, others) => greatest_scale(scale(x.get()), others.as_slice()),
        _ => 0,
    }
}
