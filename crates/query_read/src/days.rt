//! Numbers of days in text literals, and what a step makes of a date.

ghost use Rattle.std.specs.Prelude.{◌≡◌, pos, ◌≤ℤ◌, IfSome};
ghost use Rattle.std.specs.Char.{is_ascii_digit};
ghost use Rattle.std.specs.List.{list_all};
ghost use Rattle.std.specs.Option.{option_map};
ghost use Rattle.query_read.specs.Days as spec;

use query_trees::Sign;
use sql_read::integer_within;

/// Whether each byte is a digit.
fn are_digits(mut z: &[u8]) -> bool
    ensures { result ≡ list_all is_ascii_digit z.entry.now }
{
    while let [b, rest @ ..] = z {
        if !b.is_ascii_digit() {
            return false;
        }
        z = rest;
    }
    true
}

/// Whether a text is one to seven digits.
fn has_span_form(z: &[u8]) -> bool
    ensures { result ≡ spec.has_span_form z.now }
{
    1 <= z.len() && z.len() <= 7 && are_digits(z)
}

/// The value of one to seven digits.
fn digits_value(z: &[u8]) -> Option<i32>
    ensures value { result ≡ option_map pos (spec.digits_value z.now) }
    ensures bound { IfSome result (λ n. pos 0 ≤ℤ n) }
{
    if !has_span_form(z) {
        return None;
    }
    match integer_within(z) {
        Some(value) if value <= 9999999 => Some(value as i32),
        _ => None,
    }
}

/// The days of an interval's text: one to seven digits, perhaps after a sign.
pub fn span_of(z: &[u8]) -> Option<i32>
    ensures { result ≡ spec.span_number z.now }
{
    match z {
        [b'+', digits @ ..] => digits_value(digits),
        [b'-', digits @ ..] => digits_value(digits).map(|n| -n),
        _ => digits_value(z),
    }
}

/// The day after a step.
pub fn moved(sign: Sign, days: i32, day: i32) -> i64
    ensures { result ≡ spec.moved sign days day }
{
    match sign {
        Sign::Plus => day as i64 + days as i64,
        Sign::Minus => day as i64 - days as i64,
    }
}
