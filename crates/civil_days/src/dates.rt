//! Dates `yyyy-mm-dd`.

ghost use Rattle.std.specs.Prelude.{◌≡◌, ◌+◌, ◌≤◌, ◌<◌, length, true, false, MatchOption};
ghost use Rattle.civil_days.specs.Dates as spec;

use jiff_core::civil::Date;

/// Whether there is a digit at the place.
fn is_digit_at(z: &[u8], i: usize) -> bool
    requires { i < length z.now }
    ensures { result ≡ spec.is_digit_at z.now i }
{
    z[i].is_ascii_digit()
}

/// Whether a text has the form `yyyy-mm-dd`.
fn has_date_form(z: &[u8]) -> bool
    ensures { result ≡ spec.has_date_form z.now }
{
    z.len() == 10
        && is_digit_at(z, 0)
        && is_digit_at(z, 1)
        && is_digit_at(z, 2)
        && is_digit_at(z, 3)
        && z[4] == b'-'
        && is_digit_at(z, 5)
        && is_digit_at(z, 6)
        && z[7] == b'-'
        && is_digit_at(z, 8)
        && is_digit_at(z, 9)
}

/// The number that two digits spell.
fn two_digits(z: &[u8], i: usize) -> u8
    requires within { i + 1 < length z.now }
    requires first { spec.is_digit_at z.now i ≡ true }
    requires second { spec.is_digit_at z.now (i + 1) ≡ true }
    ensures value { result ≡ spec.two_digits_at z.now i }
    ensures bound { result ≤ 99 }
{
    (z[i] - b'0') * 10 + (z[i + 1] - b'0')
}

/// The day number of a date of the years from 1 on.
fn civil_day(year: u16, month: u8, day: u8) -> Option<i32>
    requires year_to { year ≤ 9999 }
    requires month_to { month ≤ 99 }
    requires day_to { day ≤ 99 }
    ensures { result ≡ spec.day_of_civil year month day }
{
    if year == 0 {
        return None;
    }
    match Date::new(year as i16, month as i8, day as i8) {
        Ok(date) => Some(date.to_unix_epoch_day()),
        Err(_) => None,
    }
}

/// The day number of the date `yyyy-mm-dd` that a text spells, with 1970-01-01 as 0; of the years 0001 to 9999, and of days that the
/// Gregorian calendar has.
pub fn day_of(z: &[u8]) -> Option<i32>
    ensures { result ≡ spec.day_number z.now }
{
    if !has_date_form(z) {
        return None;
    }
    let year = two_digits(z, 0) as u16 * 100 + two_digits(z, 2) as u16;
    civil_day(year, two_digits(z, 5), two_digits(z, 8))
}

/// The number, where it is that of one of these dates.
pub fn day_in_range(day: i64) -> Option<i32>
    ensures { MatchOption result (spec.in_range day ≡ false) (λ d. (spec.in_range day ≡ true) × (d ≡ day)) }
{
    if -719162 <= day && day <= 2932896 {
        Some(day as i32)
    } else {
        None
    }
}
