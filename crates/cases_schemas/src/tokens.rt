//! Tokens and listings.

ghost use Rattle.std.specs.Prelude.{◌<◌, ◌≤◌, ◌^◌, length};

use crate::token_kinds::kind_name;
use case_text::{after, before, first_number, show_bytes, show_count};
use sql_read::{Kind, Listing, Token, tokens};
use std::alloc::{AllocError, Global};

/// The value of an integer; the value of a fraction without its point, and its digits behind the point; nothing of any other token.
fn show_number(out: &mut String, t: &Token) -> Result<(), AllocError> {
    match t.kind {
        Kind::Digits => {
            out.push(' ')?;
            show_count(out, t.value)
        }
        Kind::Fraction => {
            out.push(' ')?;
            show_count(out, t.value)?;
            out.push(' ')?;
            show_count(out, t.scale as u128)
        }
        _ => Ok(()),
    }
}

/// The token as `(byte+length kind)`, with what a number is behind.
fn show_token(out: &mut String, t: &Token) -> Result<(), AllocError> {
    out.push_str(" (")?;
    show_count(out, t.at as u128)?;
    out.push('+')?;
    show_count(out, t.len as u128)?;
    out.push(' ')?;
    out.push_str(kind_name(t.kind))?;
    show_number(out, t)?;
    out.push(')')?;
    Ok(())
}

fn show_all(out: &mut String, found: &[Token]) -> Result<(), AllocError> {
    out.push_str("tokens:")?;
    for t in found {
        show_token(out, t)?;
    }
    Ok(())
}

/// The tokens of a text behind their limit and a blank.
pub fn show_limited(out: &mut String, alloc: Global, case: &[u8]) -> Result<(), AllocError>
    requires { length case.now < 2 ^ 32 }
{
    let limit = first_number(before(case, b' '));
    let found = tokens(alloc, after(case, b' '), limit)?;
    show_all(out, found.as_slice())
}

/// A listing that was made of all bytes but the last, to which that one was added.
pub fn show_listing(out: &mut String, alloc: Global, bytes: &[u8]) -> Result<(), AllocError> {
    match bytes {
        [] => out.push_str("nothing to add"),
        [front @ .., last] => {
            let mut listing = Listing::from_vec(Vec::from_slice(alloc, front)?);
            listing.push(*last)?;
            show_count(out, listing.len() as u128)?;
            out.push(' ')?;
            show_bytes(out, listing.into_vec().as_slice())
        }
    }
}
