//! The bytes that a case's text spells.

ghost use Rattle.std.specs.Prelude.{◌<◌, ◌≤◌, ◌-◌, length, IfOk};

use crate::pieces::{after, before, first_number};
use std::alloc::{AllocError, Global};

/// The value of a hexadecimal digit, and 0 for every other byte.
fn hex_value(b: u8) -> u8
    ensures { result < 16 }
{
    match b {
        b'0'..=b'9' => b - b'0',
        b'a'..=b'f' => b - b'a' + 10,
        b'A'..=b'F' => b - b'A' + 10,
        _ => 0,
    }
}

/// The byte that a letter behind a backslash stands for.
fn escaped(letter: u8) -> u8 {
    match letter {
        b'n' => 10,
        b'r' => 13,
        b't' => 9,
        _ => letter,
    }
}

/// Appends the two last digits of a number.
fn push_two_digits(out: &mut Vec<u8>, number: usize) -> Result<(), AllocError> {
    out.push(b'0' + (number / 10 % 10) as u8)?;
    out.push(b'0' + (number % 10) as u8)?;
    Ok(())
}

/// Appends what is spelled at the front of a text, and gives the rest of the text.
fn push_front<'a>(out: &mut Vec<u8>, text: &'a [u8]) -> Result<&'a [u8], AllocError>
    ensures shorter { IfOk result (λ rest. length rest.now ≤ length text.now - 1) }
{
    match text {
        [] => Ok(text),
        [b'\\', b'x', high, low, rest @ ..] => {
            out.push(hex_value(*high) * 16 + hex_value(*low))?;
            Ok(rest)
        }
        [b'\\', letter, rest @ ..] => {
            out.push(escaped(*letter))?;
            Ok(rest)
        }
        [b, rest @ ..] => {
            out.push(*b)?;
            Ok(rest)
        }
    }
}

/// The same in one round of a repetition, where `#` is the number of the round.
fn push_next<'a>(out: &mut Vec<u8>, text: &'a [u8], round: usize) -> Result<&'a [u8], AllocError>
    ensures shorter { IfOk result (λ rest. length rest.now ≤ length text.now - 1) }
{
    match text {
        [b'#', rest @ ..] => {
            push_two_digits(out, round)?;
            Ok(rest)
        }
        _ => push_front(out, text),
    }
}

/// Appends what a text spells in one round of a repetition.
fn push_round(out: &mut Vec<u8>, text: &[u8], round: usize) -> Result<(), AllocError> {
    let mut rest = text;
    while !rest.is_empty() {
        rest = push_next(out, rest, round)?;
    }
    Ok(())
}

/// Appends what a repetition spells, from its count on: `3 ab` spells `ababab`.
fn push_repeated(out: &mut Vec<u8>, repetition: &[u8]) -> Result<(), AllocError> {
    let count = first_number(before(repetition, b' '));
    let part = after(repetition, b' ');
    for round in 0..count {
        push_round(out, part, round)?;
    }
    Ok(())
}

/// The bytes that a case's text spells. It stands for itself, but for
///
/// - a backslash: `\n`, `\r` and `\t` are a line feed, a carriage return and a tab, `\xC3` is the byte of that number, and
///   before every other byte it stands for nothing;
/// - a brace: `{64 NOT }` is `NOT ` 64 times, and a `#` inside is the number of the round in two digits, from 00.
///
/// It fails only for want of memory.
pub fn spelled(alloc: Global, text: &[u8]) -> Result<Vec<u8>, AllocError> {
    let mut out = Vec::new(alloc);
    let mut rest = text;
    while !rest.is_empty() {
        if let [b'{', repetition @ ..] = rest {
            push_repeated(&mut out, before(repetition, b'}'))?;
            rest = after(repetition, b'}');
        } else {
            rest = push_front(&mut out, rest)?;
        }
    }
    Ok(out)
}
