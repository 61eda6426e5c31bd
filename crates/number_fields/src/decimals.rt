//! Decimals in fields.

ghost use Rattle.std.specs.Prelude.{◌≡◌, ◌≤◌, ◌<◌, ◌+◌, take, drop, length, IfOk};
ghost use Rattle.number_fields.specs.Capped.{capped_parts};
ghost use Rattle.number_fields.specs.Decimals as spec;
ghost use Rattle.number_fields.specs.Decimals.{decimal_magnitude, decimal_value, plain, units_within};

use crate::NumberFault;
use crate::digits::{power_of_ten, scaled, value_after};
use crate::integers::negated;

/// The decimal that a field spells, times ten to the power of the scale: an optional `-`, then digits with at most one point before,
/// among or after them, of which at least one is there. It is out of range where a digit after the first `scale` ones behind the point
/// is not 0, or where it has more than `precision` digits by its value. A precision above 18 is taken as 18.
pub fn decimal_of(precision: u32, scale: u32, field: &[u8]) -> Result<i64, NumberFault>
    ensures { result ≡ decimal_value precision scale field.now }
{
    match field {
        [] => Err(NumberFault::NoNumber),
        [b'-', digits @ ..] => negated(magnitude(precision, scale, digits)),
        _ => kept(magnitude(precision, scale, field)),
    }
}

fn kept(value: Result<u64, NumberFault>) -> Result<i64, NumberFault>
    requires { IfOk value (λ n. n < 1_000_000_000_000_000_000) }
    ensures { result ≡ plain value }
{
    match value {
        Ok(n) => Ok(n as i64),
        Err(fault) => Err(fault),
    }
}

/// The same without a sign.
fn magnitude(precision: u32, scale: u32, field: &[u8]) -> Result<u64, NumberFault>
    ensures value { result ≡ decimal_magnitude precision scale field.now }
    ensures most { IfOk result (λ n. n < 1_000_000_000_000_000_000) }
{
    let point = point_place(field);
    let whole = &field[..point];
    let fraction = behind(field, point);
    if whole.is_empty() && fraction.is_empty() {
        return Err(NumberFault::NoNumber);
    }
    match parts(scale, whole, fraction) {
        Some((units, rest)) => within(precision, units, rest),
        None => Err(NumberFault::NoNumber),
    }
}

/// How many bytes stand before the first point.
fn point_place(field: &[u8]) -> usize
    ensures place { result ≡ spec.point_place field.now }
    ensures within { result ≤ length field.now }
{
    for i in 0..field.len() {
        if field[i] == b'.' {
            return i;
        }
    }
    field.len()
}

/// What stands behind the byte at a place.
fn behind(field: &[u8], place: usize) -> &[u8]
    requires { place ≤ length field.now }
    ensures { result.now ≡ drop (place + 1) field.now }
{
    if place < field.len() {
        &field[place + 1..]
    } else {
        &field[place..]
    }
}

/// The digits before the point and the first `scale` ones behind it as a number of so many units, and what the others spell. None where
/// a byte is no digit.
fn parts(scale: u32, whole: &[u8], fraction: &[u8]) -> Option<(u64, u64)>
    ensures { result ≡ capped_parts scale whole.now fraction.now }
{
    let value = value_after(value_after(0, whole)?, front(fraction, scale))?;
    let rest = value_after(0, back(fraction, scale))?;
    let missing = (scale as usize).saturating_sub(fraction.len()) as u32;
    Some((scaled(value, missing), rest))
}

/// The first `count` digits, or all.
fn front(digits: &[u8], count: u32) -> &[u8]
    ensures { result.now ≡ take count digits.now }
{
    if (count as usize) < digits.len() {
        &digits[..count as usize]
    } else {
        digits
    }
}

/// The digits behind the first `count` ones.
fn back(digits: &[u8], count: u32) -> &[u8]
    ensures { result.now ≡ drop count digits.now }
{
    if (count as usize) < digits.len() {
        &digits[count as usize..]
    } else {
        &digits[digits.len()..]
    }
}

/// The units, where nothing is left and they have at most so many digits.
fn within(precision: u32, units: u64, rest: u64) -> Result<u64, NumberFault>
    ensures value { result ≡ units_within precision units rest }
    ensures most { IfOk result (λ n. n < 1_000_000_000_000_000_000) }
{
    if rest == 0 && units < power_of_ten(precision) {
        Ok(units)
    } else {
        Err(NumberFault::OutOfRange)
    }
}
