//! Answers as text.

use std::alloc::AllocError;
use std::fmt::Write;

/// Appends a whole number.
pub fn show_number(out: &mut String, number: i128) -> Result<(), AllocError> {
    write!(out, "{number}")
}

/// Appends a number that is not negative.
pub fn show_count(out: &mut String, number: u128) -> Result<(), AllocError> {
    write!(out, "{number}")
}

/// The hexadecimal digit of a value below 16.
fn hex_digit(value: u8) -> char {
    match value {
        0..=9 => (b'0' + value) as char,
        10..=15 => (b'A' + (value - 10)) as char,
        _ => '?',
    }
}

fn show_byte(out: &mut String, b: u8) -> Result<(), AllocError> {
    match b {
        10 => out.push_str("\\n"),
        b'\\' => out.push_str("\\\\"),
        32..=126 => out.push(b as char),
        _ => {
            out.push_str("\\x")?;
            out.push(hex_digit(b / 16))?;
            out.push(hex_digit(b % 16))
        }
    }
}

/// Appends bytes: printed ones of ASCII as they are, a line feed as `\n` and a backslash as `\\`, and every other one as `\xC3`.
pub fn show_bytes(out: &mut String, bytes: &[u8]) -> Result<(), AllocError> {
    for b in bytes {
        show_byte(out, *b)?;
    }
    Ok(())
}
