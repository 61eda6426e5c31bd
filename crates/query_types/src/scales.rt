//! Scales: how many digits of a number stand after its point.

ghost use Rattle.std.specs.Prelude.{◌≡◌, max, true};
ghost use Rattle.typed_trees.specs.Scales as rule;
ghost use Rattle.typed_trees.specs.Types.{scale_fits};
ghost use Rattle.query_types.specs.Expressions as spec;

use crate::typing::Typed;
use query_trees::{AggregateKind, BinaryOp};

fn greater(a: u32, b: u32) -> u32
    ensures { result ≡ max a b }
{
    if a < b { b } else { a }
}

/// Whether an operator takes numbers of these scales: a product has at most 36 digits after the point.
pub fn fits_scale(op: BinaryOp, a: u32, b: u32) -> bool
    ensures { result ≡ scale_fits op a b }
{
    match op {
        BinaryOp::Multiply => u64::from(a) + u64::from(b) <= 36,
        _ => true,
    }
}

/// The scale that an operator makes of two.
pub fn binary_scale(op: BinaryOp, a: u32, b: u32) -> u32
    requires { scale_fits op a b ≡ true }
    ensures { result ≡ rule.binary_scale op a b }
{
    match op {
        BinaryOp::Add | BinaryOp::Subtract => greater(a, b),
        BinaryOp::Multiply => a + b,
        _ => 0,
    }
}

/// The greatest of some scales.
pub fn greatest(first: u32, others: &[Typed]) -> u32
    ensures { result ≡ rule.greatest first (spec.scales others.now) }
{
    let mut most = first;
    for t in others {
        most = greater(most, t.scale);
    }
    most
}

/// The scale of an aggregate, by that of its argument.
pub fn scale_folded(of: AggregateKind, scale: u32) -> u32
    ensures { result ≡ spec.scale_folded of scale }
{
    match of {
        AggregateKind::Count => 0,
        _ => scale,
    }
}
