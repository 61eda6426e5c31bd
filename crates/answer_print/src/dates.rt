//! Dates, as text.

ghost use Rattle.std.specs.Prelude.{◌≡◌, ◌+◌, ◌%◌, ◌≤◌, true, OnOk};
ghost use Rattle.civil_days.specs.Dates.{in_range};
ghost use Rattle.answer_texts.specs.Dates as spec;
ghost use Rattle.jiff_core.specs.Calendar.{IsCivilDate};
ghost use Rattle.jiff_core.specs.Date.{epoch_day};

use crate::NoMemory;
use answer_texts::laws::date_law;
use jiff_core::civil::Date;

/// Puts the date `yyyy-mm-dd` of a day in place of what `text` holds. The day is one of the years 1 to 9999.
pub fn date_text(day: i128, text: &mut Vec<u8>) -> Result<(), NoMemory>
    requires { in_range day ≡ true }
    ensures { OnOk result (text.new.items ≡ spec.date_text day) }
{
    let (year, month, day) = civil_of(day);
    civil_text(year, month, day, text)
}

/// The year, the month and the day of a day's date.
fn civil_of(day: i128) -> (u16, u8, u8)
    requires { in_range day ≡ true }
    ensures { spec.date_text day ≡ spec.civil_text result.0 result.1 result.2 }
{
    date_law();
    let date = date_of(day);
    (date.year.unsigned_abs(), date.month, date.day)
}

/// The date of a day.
fn date_of(day: i128) -> Date
    requires { in_range day ≡ true }
    ensures day { epoch_day result ≡ day }
    ensures civil { IsCivilDate result.year result.month result.day }
{
    match Date::from_unix_epoch_day(day as i64) {
        Ok(date) => date,
        Err(_) => unreachable!(),
    }
}

/// Puts the date of a year, a month and a day in place of what `text` holds.
fn civil_text(year: u16, month: u8, day: u8, text: &mut Vec<u8>) -> Result<(), NoMemory>
    ensures { OnOk result (text.new.items ≡ spec.civil_text year month day) }
{
    text.clear();
    text.extend_from_slice(&[
        last_digit(year / 10 / 10 / 10),
        last_digit(year / 10 / 10),
        last_digit(year / 10),
        last_digit(year),
        b'-',
        last_digit(u16::from(month) / 10),
        last_digit(u16::from(month)),
        b'-',
        last_digit(u16::from(day) / 10),
        last_digit(u16::from(day)),
    ])
}

/// The last digit of a number.
fn last_digit(n: u16) -> u8
    ensures { result ≡ 48 + n % 10 }
{
    b'0' + (n % 10) as u8
}
