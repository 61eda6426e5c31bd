//! Pieces of a text.

ghost use Rattle.std.specs.Prelude.{◌<◌, ◌≤◌, length};

/// How many bytes stand before the first one that is `mark`; all where none is.
fn place_of(text: &[u8], mark: u8) -> usize
    ensures { result ≤ length text.now }
{
    text.iter().take_while(|b| **b != mark).count()
}

/// The bytes before the first one that is `mark`; all where none is.
pub fn before(text: &[u8], mark: u8) -> &[u8]
    ensures { length result.now ≤ length text.now }
{
    &text[..place_of(text, mark)]
}

/// The bytes behind the first one that is `mark`; none where none is.
pub fn after(text: &[u8], mark: u8) -> &[u8]
    ensures { length result.now ≤ length text.now }
{
    let place = place_of(text, mark);
    if place < text.len() {
        &text[place + 1..]
    } else {
        &text[place..]
    }
}

/// The number at the front of a text, at most 2^32 - 1; 0 where no digit stands there.
pub fn first_number(text: &[u8]) -> usize
    ensures { result ≤ 4294967295 }
{
    let mut number: usize = 0;
    for b in text {
        if !b.is_ascii_digit() {
            return number;
        }
        number = (number * 10 + (*b - b'0') as usize).min(4294967295);
    }
    number
}
