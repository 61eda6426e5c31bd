//! The numbers of a control file.
ghost use Rattle.std.specs.Prelude.{◌≡◌, ◌≢◌, ◌≤◌, ◌^◌, ◌∷◌, [], length, pos, FitsSigned, IfOk, MatchOption};
ghost use Rattle.std.specs.Int.{FitsUnsigned, w64};
ghost use Rattle.std.specs.List.{position_or_len, slice_split};
ghost use Rattle.control_plan.specs.Numbers as spec;
ghost use Rattle.control_plan.specs.Numbers.{is_comma};

use crate::refusal::ControlKind;
use control_vectors::ControlVector;

/// How many digits a number has at most.
const DIGITS: usize = 19;

/// The longest piece.
const LONGEST: i128 = 1 << 20;

/// The control vector of four numbers with `,` between them.
pub(crate) fn vector_in(value: &[u8]) -> Result<ControlVector, ControlKind>
    ensures { result ≡ spec.vector_in value.now }
{
    let Some((start, step, modulus, divisor)) = four_parts(value) else {
        return Err(ControlKind::BadNumber);
    };
    let (start, step) = (number_in(start), number_in(step));
    let (modulus, divisor) = (number_in(modulus), number_in(divisor));
    match (start, step, modulus, divisor) {
        (Some(start), Some(step), Some(modulus), Some(divisor)) => {
            admitted(start, step, modulus, divisor)
        }
        _ => Err(ControlKind::BadNumber),
    }
}

/// The length of a piece.
pub(crate) fn piece_in(value: &[u8]) -> Result<u32, ControlKind>
    ensures piece { result ≡ spec.piece_in value.now }
    ensures within { IfOk result (λ n. (1 ≤ n) × (n ≤ 2 ^ 20)) }
{
    match number_in(value) {
        Some(n) if 1 <= n && n <= LONGEST => Ok(n as u32),
        _ => Err(ControlKind::BadNumber),
    }
}

/// The number that bytes spell: an optional `-`, then 1 to 19 digits.
fn number_in(part: &[u8]) -> Option<i128>
    ensures { result ≡ spec.number_in part.now }
{
    match part {
        [b'-', digits @ ..] => match digits_in(digits) {
            Some(n) => Some(-i128::from(n)),
            None => None,
        },
        _ => match digits_in(part) {
            Some(n) => Some(i128::from(n)),
            None => None,
        },
    }
}

fn digits_in(digits: &[u8]) -> Option<u64>
    ensures { result ≡ spec.digits_in digits.now }
{
    if digits.is_empty() || digits.len() > DIGITS {
        return None;
    }
    let mut value = 0;
    'digits: for c in digits {
        if *c < b'0' || *c > b'9' {
            return None;
        }
        value = value * 10 + (*c - b'0') as u64;
    }
    Some(value)
}

/// The control vector of four numbers, where they are admissible.
fn admitted(
    start: i128,
    step: i128,
    modulus: i128,
    divisor: i128,
) -> Result<ControlVector, ControlKind>
    ensures { result ≡ spec.admitted start step modulus divisor }
{
    let (start, step) = (signed(start), unsigned(step));
    let (modulus, divisor) = (unsigned(modulus), unsigned(divisor));
    match (start, step, modulus, divisor) {
        (Some(start), Some(step), Some(modulus), Some(divisor)) => {
            match ControlVector::new(start, step, modulus, divisor) {
                Some(v) => Ok(v),
                None => Err(ControlKind::NotAdmissible),
            }
        }
        _ => Err(ControlKind::NotAdmissible),
    }
}

/// A number that has 64 bits with its sign.
fn signed(n: i128) -> Option<i64>
    ensures { MatchOption result (FitsSigned w64 n → ⊥) (λ m. n ≡ m) }
{
    i64::try_from(n).ok()
}

/// A number that has 64 bits without a sign.
fn unsigned(n: i128) -> Option<u64>
    ensures { MatchOption result (FitsUnsigned w64 n → ⊥) (λ m. n ≡ pos m) }
{
    u64::try_from(n).ok()
}

/// The four parts of a text that has three commas.
fn four_parts(text: &[u8]) -> Option<(&[u8], &[u8], &[u8], &[u8])>
    ensures { MatchOption result (length (slice_split is_comma text.now) ≢ 4)
        (λ p. slice_split is_comma text.now ≡ p.0.now ∷ p.1.now ∷ p.2.now ∷ p.3.now ∷ []) }
{
    let Some((first, rest)) = cut_comma(text) else {
        return None;
    };
    let Some((second, rest)) = cut_comma(rest) else {
        return None;
    };
    let Some((third, fourth)) = cut_comma(rest) else {
        return None;
    };
    match cut_comma(fourth) {
        Some(_) => None,
        None => Some((first, second, third, fourth)),
    }
}

/// What stands before the first comma, and what stands behind it.
fn cut_comma(text: &[u8]) -> Option<(&[u8], &[u8])>
    ensures { MatchOption result (slice_split is_comma text.now ≡ text.now ∷ [])
        (λ p. slice_split is_comma text.now ≡ p.0.now ∷ slice_split is_comma p.1.now) }
{
    let len = comma_len(text);
    if len < text.len() {
        Some((&text[..len], &text[len + 1..]))
    } else {
        None
    }
}

/// How many bytes stand before the first comma.
fn comma_len(text: &[u8]) -> usize
    ensures value { result ≡ position_or_len is_comma text.now }
    ensures within { result ≤ length text.now }
{
    text.iter().take_while(|byte| **byte != b',').count()
}
