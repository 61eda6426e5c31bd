//! Numbers at a scale, as text.

ghost use Rattle.std.specs.Prelude.{◌≡◌, ◌++◌, ◌∷◌, [], ◌≤◌, ◌<◌, ◌-◌, length, replicate, take, drop, OnOk};
ghost use Rattle.std.specs.Fmt.{decimal};
ghost use Rattle.answer_texts.specs.Numbers as spec;

use crate::NoMemory;
use itoa::Buffer;

/// Puts the text of a number in place of what `text` holds: at a scale above 0 its whole part with at least one digit, a point, and so
/// many digits as the scale says.
pub fn number_text(z: i128, scale: u32, text: &mut Vec<u8>) -> Result<(), NoMemory>
    ensures { OnOk result (text.new.items ≡ spec.number_text scale z) }
{
    text.clear();
    if z < 0 {
        text.push(b'-')?;
    }
    push_scaled(z.unsigned_abs(), scale, text)
}

/// A number that is not below 0 more.
fn push_scaled(n: u128, scale: u32, text: &mut Vec<u8>) -> Result<(), NoMemory>
    ensures { OnOk result (text.new.items ≡ text.old.items ++ spec.scaled scale n) }
{
    let mut buffer = Buffer::new();
    let digits = buffer.format(n).as_bytes();
    if scale == 0 {
        return text.extend_from_slice(digits);
    }
    push_pointed(digits, scale as usize, text)
}

/// The digits of a number more, of which the last so many stand behind the point.
fn push_pointed(digits: &[u8], scale: usize, text: &mut Vec<u8>) -> Result<(), NoMemory>
    ensures small { OnOk result (length digits.now ≤ scale → text.new.items ≡ text.old.items ++ (48 ∷ 46 ∷ (replicate (scale - length digits.now) 48 ++ digits.now))) }
    ensures large { OnOk result (scale < length digits.now → text.new.items ≡ text.old.items ++ (take (length digits.now - scale) digits.now ++ 46 ∷ drop (length digits.now - scale) digits.now)) }
{
    if digits.len() <= scale {
        text.extend_from_slice(b"0.")?;
        push_zeros(scale - digits.len(), text)?;
        return text.extend_from_slice(digits);
    }
    let point = digits.len() - scale;
    text.extend_from_slice(&digits[..point])?;
    text.push(b'.')?;
    text.extend_from_slice(&digits[point..])
}

/// So many zeros more.
fn push_zeros(count: usize, text: &mut Vec<u8>) -> Result<(), NoMemory>
    ensures { OnOk result (text.new.items ≡ text.old.items ++ replicate count 48) }
{
    for _ in 0..count {
        text.push(b'0')?;
    }
    Ok(())
}
