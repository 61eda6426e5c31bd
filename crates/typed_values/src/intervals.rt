//! Intervals of numbers of 128 bits.

ghost use Rattle.std.specs.Prelude.{◌≡◌, ◌^◌, pos};
ghost use Rattle.control_vectors.specs.Slots.{in_128_bits};
ghost use Rattle.typed_values.specs.Bounds.{hull};
ghost use Rattle.typed_values.specs.Intervals as exactly;
ghost use Rattle.typed_values.specs.Narrow as spec;

use control_vectors::{add, mul, quot, sub};
use query_trees::{BinaryOp, Sign};
use sql_read::ColumnKind;
use typed_trees::ColumnType;

/// The least and the greatest that a value may be.
#[derive(Clone, Copy)]
pub struct Interval {
    pub least: i128,
    pub greatest: i128,
}

pub fn from_to(least: i128, greatest: i128) -> Interval
    ensures { result ≡ exactly.interval least greatest }
{
    Interval { least, greatest }
}

/// 10 to this power, where it has 128 bits.
#[tactic(auto, using(control_vectors::proofs::NumberLaws::in_128_bits_from_SomeIff))]
fn power_of_ten(n: u32) -> Option<i128>
    ensures { result ≡ in_128_bits (pos (10 ^ n)) }
{
    10i128.checked_pow(n)
}

/// From the one to the other, where both have 128 bits.
fn between(least: Option<i128>, greatest: Option<i128>) -> Option<Interval>
    ensures { result ≡ spec.between least greatest }
{
    match (least, greatest) {
        (Some(least), Some(greatest)) => Some(from_to(least, greatest)),
        _ => None,
    }
}

/// The decimals of at most so many digits.
fn digits(precision: u32) -> Option<Interval>
    ensures { result ≡ spec.digits precision }
{
    match power_of_ten(precision) {
        None => None,
        Some(beyond) => between(sub(1, beyond), sub(beyond, 1)),
    }
}

pub fn of_type(column: ColumnType) -> Option<Interval>
    ensures { result ≡ spec.of_type column }
{
    match column.kind {
        ColumnKind::Integer => Some(from_to(-9223372036854775808, 9223372036854775807)),
        ColumnKind::Decimal => digits(column.width),
        ColumnKind::Date => Some(from_to(-719162, 2932896)),
        ColumnKind::Text => Some(from_to(0, 4294967295)),
    }
}

/// An interval of numbers that are rescaled by so many digits.
pub fn raised(by: u32, a: Interval) -> Option<Interval>
    ensures { result ≡ spec.raised by a }
{
    match power_of_ten(by) {
        None => None,
        Some(power) => between(mul(a.least, power), mul(a.greatest, power)),
    }
}

/// A number alone.
fn point(z: Option<i128>) -> Option<Interval>
    ensures { result ≡ spec.point z }
{
    match z {
        None => None,
        Some(z) => Some(from_to(z, z)),
    }
}

/// The least interval around two.
pub fn hull(a: Option<Interval>, b: Option<Interval>) -> Option<Interval>
    ensures { result ≡ hull a b }
{
    match (a, b) {
        (Some(a), Some(b)) => Some(from_to(a.least.min(b.least), a.greatest.max(b.greatest))),
        _ => None,
    }
}

/// A literal's interval.
pub fn literal(n: u128) -> Option<Interval>
    ensures { result ≡ spec.literal n }
{
    if n < 170141183460469231731687303715884105728 {
        Some(from_to(n as i128, n as i128))
    } else {
        None
    }
}

/// A date's interval, its day alone.
pub fn date(day: i32) -> Option<Interval>
    ensures { result ≡ spec.exact day }
{
    Some(from_to(day as i128, day as i128))
}

fn signed(sign: Sign, z: i128) -> Option<i128>
    ensures { result ≡ in_128_bits (exactly.signed sign z) }
{
    match sign {
        Sign::Plus => add(0, z),
        Sign::Minus => sub(0, z),
    }
}

pub fn signed_interval(sign: Sign, a: Interval) -> Option<Interval>
    ensures { result ≡ spec.signed_interval sign a }
{
    hull(
        point(signed(sign, a.least)),
        point(signed(sign, a.greatest)),
    )
}

fn combined(op: BinaryOp, x: i128, y: i128) -> Option<i128>
    ensures { result ≡ in_128_bits (exactly.combined op x y) }
{
    match op {
        BinaryOp::Subtract => sub(x, y),
        BinaryOp::Multiply => mul(x, y),
        _ => add(x, y),
    }
}

pub fn combined_interval(op: BinaryOp, a: Interval, b: Interval) -> Option<Interval>
    ensures { result ≡ spec.combined_interval op a b }
{
    let from_least = hull(
        point(combined(op, a.least, b.least)),
        point(combined(op, a.least, b.greatest)),
    );
    let from_greatest = hull(
        point(combined(op, a.greatest, b.least)),
        point(combined(op, a.greatest, b.greatest)),
    );
    hull(from_least, from_greatest)
}

pub fn quotient_interval(a: Interval, divisor: i128) -> Option<Interval>
    ensures { result ≡ spec.quotient_interval a divisor }
{
    if divisor == 0 {
        return None;
    }
    hull(
        point(quot(a.least, divisor)),
        point(quot(a.greatest, divisor)),
    )
}

/// The divisor of a quotient, where it has 128 bits.
pub fn divisor(sign: Sign, digits: u128) -> Option<i128>
    ensures { result ≡ spec.divisor sign digits }
{
    if digits < 170141183460469231731687303715884105728 {
        signed(sign, digits as i128)
    } else {
        None
    }
}
