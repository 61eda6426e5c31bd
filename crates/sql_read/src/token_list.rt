//! The tokens of a text.

ghost use Rattle.std.specs.Prelude.{◌≡◌, ◌<◌, ◌≤◌, ◌+◌, ◌^◌, length, vec_len, IfOk, OnOk, true, false, Option, Some, None, IsTrue};
ghost use Rattle.sql_read.specs.Tokens as spec;

use crate::kind::Kind;
use crate::lexis::{Piece, front};
use std::alloc::{AllocError, Global};

/// A token of a text, and where it stands.
#[derive(Clone, Copy)]
pub struct Token {
    pub kind: Kind,
    /// The token's first byte, counted from 0.
    pub at: u32,
    /// How many bytes it takes.
    pub len: u32,
    /// The value of a number without its point, at most 2^127 - 1; 0 for every other kind.
    pub value: u128,
    /// How many of its digits stand after the point, at most 18; 0 where there is none.
    pub scale: u32,
}

fn token_of(at: u32, piece: Piece) -> Option<Token>
    requires { piece.len < 2 ^ 32 }
    ensures { result ≡ spec.token_of at piece }
{
    let t = Token {
        kind: piece.kind,
        at,
        len: piece.len as u32,
        value: piece.value,
        scale: piece.scale,
    };
    match piece.kind {
        Kind::Blank => None,
        _ => Some(t),
    }
}

fn past(t: Token) -> Token
    ensures { result ≡ spec.past t }
{
    let kind = match t.kind {
        Kind::BadToken => Kind::BadToken,
        Kind::TooWide => Kind::TooWide,
        _ => Kind::Past,
    };
    Token { kind, ..t }
}

/// Adds the token, if it is one, and says whether more may come.
fn take_in(out: &mut Vec<Token>, limit: usize, found: Option<Token>) -> Result<bool, AllocError>
    ensures { IfOk result (λ room. spec.TakesIn limit found (vec_len out.old) out.old.items room (vec_len out.new) out.new.items) }
{
    match found {
        None => Ok(true),
        Some(t) if out.len() < limit => {
            out.push(t)?;
            Ok(true)
        }
        Some(t) => {
            out.push(past(t))?;
            Ok(false)
        }
    }
}

/// The tokens of a text in order, at most `limit` of them and the first one past that. Bad tokens stay in the list as what they are.
pub fn tokens(alloc: Global, text: &[u8], limit: usize) -> Result<Vec<Token>, AllocError>
    requires { length text.now < 2 ^ 32 }
    ensures { IfOk result (λ v. v.items ≡ spec.tokens limit text.now) }
{
    let mut out = Vec::new(alloc);
    let mut z = text;
    let mut at: u32 = 0;
    while !z.is_empty() {
        let piece = front(z);
        if !take_in(&mut out, limit, token_of(at, piece))? {
            return Ok(out);
        }
        at += piece.len as u32;
        z = &z[piece.len..];
    }
    Ok(out)
}
