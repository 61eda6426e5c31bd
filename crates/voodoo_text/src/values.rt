//! What the word of a token spells.

ghost use Rattle.std.specs.Prelude.{◌≡◌, ◌≤◌, ◌<◌, ◌≤ℤ◌, ◌^◌, pos, neg_ℤ, drop, IfOk, IfSome, IsTrue};
ghost use Rattle.std.specs.Str.{IsUtf8};
ghost use Rattle.std.specs.Str.Parse.{starts_with_minus};
ghost use Rattle.key_paths.specs.Paths.{is_segment, IsPath};
ghost use Rattle.voodoo_text.specs.Values as spec;

use crate::NoMemory;
use control_vectors::ControlVector;
use io_edge::Name;
use key_paths::Path;
use std::alloc::Global;

/// The text that a word is.
fn text(word: &[u8]) -> &str
    requires { IsUtf8 word.now }
    ensures { result.now ≡ word.now }
{
    match str::from_utf8(word) {
        Ok(text) => text,
        Err(_) => unreachable!(),
    }
}

/// The name that a word is.
#[tactic(auto, using(key_paths::proofs::Forms::segment_utf8))]
pub(crate) fn name(alloc: Global, word: &[u8]) -> Result<Name, NoMemory>
    requires { IsTrue (is_segment word.now) }
    ensures { IfOk result (λ n. n ≡ word.now) }
{
    Name::of(alloc, text(word))
}

/// The path that a word is.
#[tactic(auto, using(key_paths::proofs::Forms::path_utf8))]
pub(crate) fn path(alloc: Global, word: &[u8]) -> Result<Path, NoMemory>
    requires { IsPath word.now }
    ensures { IfOk result (λ p. p ≡ word.now) }
{
    Path::of(alloc, text(word))
}

/// The number that digits spell, up to `most`.
fn digits_within(digits: &[u8], most: u128) -> Option<u128>
    requires { most ≤ 2 ^ 127 }
    ensures value { result ≡ spec.digits_within most digits.now }
    ensures range { IfSome result (λ n. n ≤ most) }
{
    let mut value: u128 = 0;
    for byte in digits {
        if !byte.is_ascii_digit() || value > most / 10 {
            return None;
        }
        value = value * 10 + (*byte - b'0') as u128;
    }
    if value <= most { Some(value) } else { None }
}

/// Whether a word has a sign.
fn starts_with_minus(word: &[u8]) -> bool
    ensures { result ≡ starts_with_minus word.now }
{
    match word {
        [b'-', ..] => true,
        _ => false,
    }
}

/// A word without its first byte.
fn unsigned(word: &[u8]) -> &[u8]
    ensures { result.now ≡ drop 1 word.now }
{
    match word {
        [] => b"",
        [_sign, digits @ ..] => digits,
    }
}

/// The number from `-least` to `most` that a word spells.
pub(crate) fn integer_within(word: &[u8], least: u128, most: u128) -> Option<i128>
    requires least { least ≤ 2 ^ 127 }
    requires most { most < 2 ^ 127 }
    ensures value { result ≡ spec.integer_within least most word.now }
    ensures range { IfSome result (λ z. (neg_ℤ (pos least) ≤ℤ z) × (z ≤ℤ pos most)) }
{
    if starts_with_minus(word) {
        let n = digits_within(unsigned(word), least)?;
        Some(negated(n))
    } else {
        let n = digits_within(word, most)?;
        Some(n as i128)
    }
}

/// A number below 0 or 0 itself, from how far below it is.
fn negated(n: u128) -> i128
    requires { n ≤ 2 ^ 127 }
    ensures { result ≡ neg_ℤ (pos n) }
{
    if n == 1 << 127 {
        i128::MIN
    } else {
        -(n as i128)
    }
}

/// The number from 0 to `most` that a word spells; zero may have a sign.
pub(crate) fn natural_within(word: &[u8], most: u128) -> Option<u128>
    requires { most ≤ 2 ^ 127 }
    ensures value { result ≡ spec.natural_within most word.now }
    ensures range { IfSome result (λ n. n ≤ most) }
{
    if starts_with_minus(word) {
        digits_within(unsigned(word), 0)
    } else {
        digits_within(word, most)
    }
}

/// The control vector of four numbers, where they are admissible.
pub(crate) fn admitted(start: i64, step: u64, modulus: u64, divisor: u64) -> Option<ControlVector>
    ensures { result ≡ spec.admitted start step modulus divisor }
{
    ControlVector::new(start, step, modulus, divisor)
}
