//! What stands at the front of a text: a token, blanks or a comment.

ghost use Rattle.std.specs.Prelude.{◌≡◌, ◌≢◌, ◌<◌, ◌≤◌, ◌+◌, ◌-◌, ◌^◌, ◌++◌, length, slice_index, if◌then◌else◌, nat_lt, nat_le, IfSome, Some, None, true, false};
ghost use Rattle.sql_read.specs.Lexis as spec;

use crate::kind::{Kind, word_kind};

/// A kind, a length in bytes, and the value and the scale of a number (0 for every other kind).
#[derive(Clone, Copy)]
pub struct Piece {
    pub kind: Kind,
    pub len: usize,
    pub value: u128,
    pub scale: u32,
}

/// Bytes that stand in a row.
#[derive(Clone, Copy)]
enum Class {
    Blank,
    Digit,
    Word,
    Line,
}

fn is_in(class: Class, b: u8) -> bool
    ensures { result ≡ spec.is_in class b }
{
    match class {
        Class::Blank => b == b' ' || b == 9 || b == 13 || b == 10,
        Class::Digit => b.is_ascii_digit(),
        Class::Word => b.is_ascii_alphanumeric() || b == b'_',
        Class::Line => b != 10,
    }
}

fn byte(z: &[u8], at: usize) -> u8
    ensures value { result ≡ slice_index z.now at }
    ensures within { result ≢ 0 → at < length z.now }
{
    if at < z.len() { z[at] } else { 0 }
}

/// How many bytes at the front are of the class.
fn run_len(class: Class, z: &[u8]) -> usize
    ensures value { result ≡ spec.run_len class z.now }
    ensures within { result ≤ length z.now }
{
    z.iter().take_while(|b| is_in(class, **b)).count()
}

fn plain(kind: Kind, len: usize) -> Piece
    ensures { result ≡ spec.plain kind len }
{
    Piece {
        kind,
        len,
        value: 0,
        scale: 0,
    }
}

fn word(z: &[u8]) -> Piece
    ensures value { result ≡ spec.word z.now }
    ensures within { result.len ≤ length z.now }
{
    let len = run_len(Class::Word, z);
    if len > 64 {
        plain(Kind::BadToken, len)
    } else {
        plain(word_kind(&z[..len]), len)
    }
}

const MAX_INTEGER: u128 = 0x7fff_ffff_ffff_ffff_ffff_ffff_ffff_ffff;

/// The greatest number of digits after a point.
const MAX_SCALE: usize = 18;

/// The value of a number's digits with these behind it, if it is at most 2^127 - 1.
fn continued(start: u128, mut z: &[u8]) -> Option<u128>
    ensures { result ≡ spec.continued start z.entry.now }
{
    let mut value = start;
    while let [b, rest @ ..] = z {
        if value > MAX_INTEGER / 10 {
            return None;
        }
        value = value * 10 + b.saturating_sub(48) as u128;
        z = rest;
    }
    if value <= MAX_INTEGER {
        Some(value)
    } else {
        None
    }
}

/// The digits' value, if it is at most 2^127 - 1.
pub fn integer_within(z: &[u8]) -> Option<u128>
    ensures { result ≡ spec.integer_within z.now }
{
    continued(0, z)
}

/// The value of two runs of digits in a row, if it is at most 2^127 - 1.
fn joined_within(whole: &[u8], part: &[u8]) -> Option<u128>
    ensures { result ≡ spec.integer_within (whole.now ++ part.now) }
{
    match integer_within(whole) {
        None => None,
        Some(value) => continued(value, part),
    }
}

fn valued(kind: Kind, len: usize, scale: u32, value: Option<u128>) -> Piece
    ensures { result ≡ spec.valued kind len scale value }
{
    match value {
        None => plain(Kind::TooWide, len),
        Some(value) => Piece {
            kind,
            len,
            value,
            scale,
        },
    }
}

/// A number whose point stands behind so many digits.
fn fraction(whole: usize, z: &[u8]) -> Piece
    requires { whole < length z.now }
    ensures value { result ≡ spec.fraction whole z.now }
    ensures within { result.len ≤ length z.now }
{
    let rest = &z[whole + 1..];
    let scale = run_len(Class::Digit, rest);
    let len = whole + 1 + scale;
    if scale > MAX_SCALE {
        plain(Kind::TooWide, len)
    } else {
        valued(
            Kind::Fraction,
            len,
            scale as u32,
            joined_within(&z[..whole], &rest[..scale]),
        )
    }
}

fn number(z: &[u8]) -> Piece
    ensures value { result ≡ spec.number z.now }
    ensures within { result.len ≤ length z.now }
{
    let whole = run_len(Class::Digit, z);
    if byte(z, whole) == b'.' && byte(z, whole + 1).is_ascii_digit() {
        fraction(whole, z)
    } else {
        valued(Kind::Digits, whole, 0, integer_within(&z[..whole]))
    }
}

/// The place after the closing quote.
fn closing(mut z: &[u8]) -> Option<usize>
    requires { length z.now < 2 ^ 63 }
    ensures value { result ≡ spec.closing false 1 z.entry.now }
    ensures within { IfSome result (λ end. (1 ≤ end) × (end ≤ length z.entry.now + 1)) }
{
    let mut is_second = false;
    let mut at = 1;
    while let [b, rest @ ..] = z {
        if !is_second && *b == b'\'' && byte(rest, 0) != b'\'' {
            return Some(at + 1);
        }
        is_second = !is_second && *b == b'\'';
        at += 1;
        z = rest;
    }
    None
}

fn quoted(z: &[u8]) -> Piece
    requires { 0 < length z.now }
    ensures value { result ≡ spec.quoted z.now }
    ensures within { (1 ≤ result.len) × (result.len ≤ length z.now) }
{
    match closing(&z[1..]) {
        None => plain(Kind::BadToken, z.len()),
        Some(end) => plain(Kind::Quoted, end),
    }
}

#[tactic(auto, unfolding(crate::specs::Lexis::sign))]
fn sign(b: u8, second: u8) -> Piece
    ensures value { result ≡ spec.sign b second }
    ensures within { spec.IsShort second result.len }
{
    match b {
        b'(' => plain(Kind::OpenParen, 1),
        b')' => plain(Kind::CloseParen, 1),
        b',' => plain(Kind::Comma, 1),
        b'.' => plain(Kind::Dot, 1),
        b';' => plain(Kind::Semicolon, 1),
        b'*' => plain(Kind::Star, 1),
        b'+' => plain(Kind::Plus, 1),
        b'-' => plain(Kind::Minus, 1),
        b'/' => plain(Kind::Slash, 1),
        b'=' => plain(Kind::Equal, 1),
        b'<' if second == b'>' => plain(Kind::Differs, 2),
        b'<' if second == b'=' => plain(Kind::LessEqual, 2),
        b'<' => plain(Kind::Less, 1),
        b'>' if second == b'=' => plain(Kind::GreaterEqual, 2),
        b'>' => plain(Kind::Greater, 1),
        _ => plain(Kind::BadToken, 1),
    }
}

/// The token, the blanks or the comment at the front.
#[tactic(auto, unfolding(crate::specs::Lexis::front))]
pub fn front(z: &[u8]) -> Piece
    requires { 0 < length z.now }
    ensures value { result ≡ spec.front z.now }
    ensures within { (1 ≤ result.len) × (result.len ≤ length z.now) }
{
    let b = z[0];
    if is_in(Class::Blank, b) {
        plain(Kind::Blank, 1 + run_len(Class::Blank, &z[1..]))
    } else if b == b'-' && byte(z, 1) == b'-' {
        plain(Kind::Blank, 1 + run_len(Class::Line, &z[1..]))
    } else if b.is_ascii_alphabetic() {
        word(z)
    } else if b.is_ascii_digit() {
        number(z)
    } else if b == b'\'' {
        quoted(z)
    } else {
        sign(b, byte(z, 1))
    }
}
