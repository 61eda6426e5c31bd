//! Whole numbers in fields.

ghost use Rattle.std.specs.Prelude.{◌≡◌, ◌≤◌, IfOk};
ghost use Rattle.number_fields.specs.Integers.{integer_value, magnitude_of, below_zero, not_below_zero};

use crate::NumberFault;

/// 2^63, the greatest value of the digits.
const MOST: u64 = 9_223_372_036_854_775_808;

/// The whole number that a field spells: an optional `-`, then digits, from -2^63 to 2^63 - 1.
pub fn integer_of(field: &[u8]) -> Result<i64, NumberFault>
    ensures { result ≡ integer_value field.now }
{
    match field {
        [] => Err(NumberFault::NoNumber),
        [b'-', digits @ ..] => negated(magnitude(digits)),
        _ => kept(magnitude(field)),
    }
}

/// The number with a `-` before it.
pub fn negated(value: Result<u64, NumberFault>) -> Result<i64, NumberFault>
    requires { IfOk value (λ n. n ≤ 9_223_372_036_854_775_808) }
    ensures { result ≡ below_zero value }
{
    match value {
        Ok(n) => Ok((-(n as i128)) as i64),
        Err(fault) => Err(fault),
    }
}

fn kept(value: Result<u64, NumberFault>) -> Result<i64, NumberFault>
    ensures { result ≡ not_below_zero value }
{
    match value {
        Ok(n) if n < MOST => Ok(n as i64),
        Ok(_) => Err(NumberFault::OutOfRange),
        Err(fault) => Err(fault),
    }
}

/// The value of digits, up to 2^63.
fn magnitude(digits: &[u8]) -> Result<u64, NumberFault>
    ensures value { result ≡ magnitude_of digits.now }
    ensures most { IfOk result (λ n. n ≤ 9_223_372_036_854_775_808) }
{
    if digits.is_empty() {
        return Err(NumberFault::NoNumber);
    }
    let mut value = 0;
    let mut is_over = false;
    'digits: for c in digits {
        if *c < b'0' || *c > b'9' {
            return Err(NumberFault::NoNumber);
        }
        // A value above 2^63 stays above it, whatever digits follow.
        if value > MOST / 10 {
            is_over = true;
        } else {
            value = value * 10 + (*c - b'0') as u64;
        }
    }
    if is_over || value > MOST {
        Err(NumberFault::OutOfRange)
    } else {
        Ok(value)
    }
}
