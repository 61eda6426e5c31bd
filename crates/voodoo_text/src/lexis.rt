//! What stands at the front of a line where no blank does.

ghost use Rattle.std.specs.Prelude.{◌≡◌, ◌≤◌, ◌<◌, ◌+◌, ◌^◌, length, slice_index};
ghost use Rattle.std.specs.Char.{is_ascii_digit};
ghost use Rattle.std.specs.List.{prefix_len};
ghost use Rattle.key_paths.specs.Paths.{begins_segment as may_begin, is_in_segment as may_follow};
ghost use Rattle.voodoo_text.specs.Lexis as spec;

use crate::kind::Kind;
use key_paths::is_path;

/// How many bytes a name has at most.
const LONGEST_NAME: usize = 64;

/// A token's kind, and how many bytes it takes.
#[derive(Clone, Copy)]
pub struct Piece {
    pub kind: Kind,
    pub len: usize,
}

/// Space, tab, carriage return.
pub(crate) fn is_blank(byte: u8) -> bool
    ensures { result ≡ spec.is_blank byte }
{
    byte == b' ' || (byte == b'\t' || byte == b'\r')
}

/// Whether a byte may begin a name.
fn begins_segment(byte: u8) -> bool
    ensures { result ≡ may_begin byte }
{
    byte.is_ascii_alphabetic() || byte == b'_'
}

/// Whether a byte may stand in a name.
fn is_in_segment(byte: u8) -> bool
    ensures { result ≡ may_follow byte }
{
    byte.is_ascii_alphanumeric() || byte == b'_'
}

/// Whether a name begins here.
fn begins_name(z: &[u8]) -> bool
    ensures { result ≡ spec.begins_name z.now }
{
    match z {
        [] => false,
        [byte, ..] => begins_segment(*byte),
    }
}

/// Whether digits begin here.
fn begins_digits(z: &[u8]) -> bool
    ensures { result ≡ spec.begins_digits z.now }
{
    match z {
        [] => false,
        [byte, ..] => byte.is_ascii_digit(),
    }
}

/// How many digits stand here.
fn digits_len(z: &[u8]) -> usize
    ensures value { result ≡ prefix_len is_ascii_digit z.now }
    ensures within { result ≤ length z.now }
{
    z.iter().take_while(|byte| byte.is_ascii_digit()).count()
}

/// How many bytes here may stand in a name.
fn segment_len(z: &[u8]) -> usize
    ensures value { result ≡ prefix_len may_follow z.now }
    ensures within { result ≤ length z.now }
{
    z.iter().take_while(|byte| is_in_segment(**byte)).count()
}

/// How many bytes go on a path.
fn inner_len(z: &[u8]) -> usize
    ensures value { result ≡ spec.inner_len z.now }
    ensures within { result ≤ length z.now }
{
    let mut len = 0;
    let mut rest = z;
    'bytes: while let [byte, others @ ..] = rest {
        if !goes_on(*byte, others) {
            return len;
        }
        len += 1;
        rest = others;
    }
    len
}

/// Whether a byte goes on a path: one of a segment, or a dot that a segment follows.
fn goes_on(byte: u8, others: &[u8]) -> bool
    ensures { result ≡ spec.goes_on byte others.now }
{
    is_in_segment(byte) || (byte == b'.' && begins_name(others))
}

/// How many bytes of a path follow its first dot.
fn after_dot_len(z: &[u8]) -> usize
    ensures value { result ≡ spec.after_dot_len z.now }
    ensures within { result ≤ length z.now }
{
    if begins_name(z) { inner_len(z) } else { 0 }
}

/// A name.
fn name(z: &[u8]) -> Piece
    ensures value { result ≡ spec.name z.now }
    ensures within { result.len ≤ length z.now }
{
    let len = segment_len(z);
    let kind = if len <= LONGEST_NAME {
        Kind::Name
    } else {
        Kind::Bad
    };
    Piece { kind, len }
}

/// The kind of a path that directly follows a name, or of another.
fn path_kind(after_name: bool) -> Kind
    ensures { result ≡ spec.path_kind after_name }
{
    if after_name {
        Kind::Attached
    } else {
        Kind::Path
    }
}

/// A path.
fn path(after_name: bool, z: &[u8]) -> Piece
    requires some { 0 < length z.now }
    requires few { length z.now < 2 ^ 32 }
    ensures value { result ≡ spec.path after_name z.now }
    ensures within { result.len ≤ length z.now }
{
    let len = after_dot_len(&z[1..]) + 1;
    let kind = if is_path(&z[..len]) {
        path_kind(after_name)
    } else {
        Kind::Bad
    };
    Piece { kind, len }
}

/// Digits.
fn digits(z: &[u8]) -> Piece
    ensures value { result ≡ spec.digits z.now }
    ensures within { result.len ≤ length z.now }
{
    Piece {
        kind: Kind::Number,
        len: digits_len(z),
    }
}

/// A number's sign with its digits, or a sign alone.
fn minus(z: &[u8]) -> Piece
    requires { 0 < length z.now }
    ensures value { result ≡ spec.minus z.now }
    ensures within { result.len ≤ length z.now }
{
    let after = &z[1..];
    if begins_digits(after) {
        Piece {
            kind: Kind::Number,
            len: digits_len(after) + 1,
        }
    } else {
        Piece {
            kind: Kind::Minus,
            len: 1,
        }
    }
}

/// The kind of a sign.
#[tactic(auto, unfolding(crate::specs::Lexis::sign))]
fn sign(byte: u8) -> Kind
    ensures { result ≡ spec.sign byte }
{
    match byte {
        b'=' => Kind::Equal,
        b'(' => Kind::Open,
        b')' => Kind::Close,
        b',' => Kind::Comma,
        b'+' => Kind::Plus,
        _ => Kind::Bad,
    }
}

/// The token at the front, by its first byte.
#[tactic(auto, unfolding(crate::specs::Lexis::front))]
pub(crate) fn front(after_name: bool, z: &[u8]) -> Piece
    requires some { 0 < length z.now }
    requires few { length z.now < 2 ^ 32 }
    ensures value { result ≡ spec.front after_name z.now }
    ensures within { (1 ≤ result.len) × (result.len ≤ length z.now) }
{
    let byte = z[0];
    if begins_segment(byte) {
        name(z)
    } else if byte == b'.' {
        path(after_name, z)
    } else if byte.is_ascii_digit() {
        digits(z)
    } else if byte == b'-' {
        minus(z)
    } else {
        Piece {
            kind: sign(byte),
            len: 1,
        }
    }
}
