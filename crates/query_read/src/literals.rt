//! What stands in text literals.

ghost use Rattle.std.specs.Prelude.{◌≡◌, ◌≤◌, ◌∷◌, length, IfOk};
ghost use Rattle.query_read.specs.Literals as spec;

use io_edge::Name;
use sql_read::{Token, extent};
use std::alloc::{AllocError, Global};

/// The bytes between the quotes of a literal.
pub fn inner(text: &[u8], t: Token) -> &[u8]
    ensures { result.now ≡ spec.inner text.now t }
{
    let z = extent(text, t);
    let rest = &z[z.len().min(1)..];
    &rest[..rest.len().min((t.len as usize).saturating_sub(2))]
}

/// What follows a byte, without the second of two quotes.
#[tactic(auto, unfolding(crate::specs::Literals::single_quoted))]
fn after(b: u8, rest: &[u8]) -> &[u8]
    ensures value { spec.single_quoted (b ∷ rest.now) ≡ b ∷ spec.single_quoted result.now }
    ensures within { length result.now ≤ length rest.now }
{
    match rest {
        [b'\'', more @ ..] if b == b'\'' => more,
        _ => rest,
    }
}

/// The value of what stands between quotes: two quotes in a row are one.
#[tactic(auto, unfolding(crate::specs::Literals::single_quoted))]
fn single_quoted(alloc: Global, z: &[u8]) -> Result<Vec<u8>, AllocError>
    ensures { IfOk result (λ v. v.items ≡ spec.single_quoted z.now) }
{
    let mut out = Vec::new(alloc);
    let mut ahead = z;
    while let [b, rest @ ..] = ahead {
        out.push(*b)?;
        ahead = after(*b, rest);
    }
    Ok(out)
}

/// The value of a text literal.
pub fn content(alloc: Global, text: &[u8], t: Token) -> Result<Name, AllocError>
    ensures { IfOk result (λ v. v ≡ spec.content text.now t) }
{
    let z = single_quoted(alloc, inner(text, t))?;
    Ok(Name::from_string(String::from_utf8_lossy(alloc, z.as_slice())?))
}
