//! What operators and aggregates take.

ghost use Rattle.std.specs.Prelude.{◌≡◌};
ghost use Rattle.query_types.specs.Kinds as spec;
ghost use Rattle.typed_trees.specs.Kinds as kinds;

use query_trees::AggregateKind;
use typed_trees::{Family, Kind};

pub fn same_kind(a: Kind, b: Kind) -> bool
    ensures { result ≡ kinds.same_kind a b }
{
    match (a, b) {
        (Kind::Number, Kind::Number)
        | (Kind::Date, Kind::Date)
        | (Kind::Text, Kind::Text)
        | (Kind::Truth, Kind::Truth) => true,
        _ => false,
    }
}

pub fn is_number(a: Kind) -> bool
    ensures { result ≡ kinds.is_number a }
{
    match a {
        Kind::Number => true,
        _ => false,
    }
}

pub fn is_truth(a: Kind) -> bool
    ensures { result ≡ kinds.is_truth a }
{
    match a {
        Kind::Truth => true,
        _ => false,
    }
}

/// Whether two values may be sides of one comparison.
pub fn compare(a: Kind, b: Kind) -> bool
    ensures { result ≡ kinds.compare a b }
{
    same_kind(a, b) && !is_truth(a)
}

pub fn takes(of: Family, a: Kind, b: Kind) -> bool
    ensures { result ≡ kinds.takes of a b }
{
    match of {
        Family::Logic => is_truth(a) && is_truth(b),
        Family::Comparison => compare(a, b),
        Family::Arithmetic => is_number(a) && is_number(b),
    }
}

pub fn makes(of: Family) -> Kind
    ensures { result ≡ kinds.makes of }
{
    match of {
        Family::Arithmetic => Kind::Number,
        _ => Kind::Truth,
    }
}

/// Whether an aggregate takes values of this kind.
pub fn folds(of: AggregateKind, a: Kind) -> bool
    ensures { result ≡ spec.folds of a }
{
    match of {
        AggregateKind::Sum | AggregateKind::Avg => is_number(a),
        _ => !is_truth(a),
    }
}
