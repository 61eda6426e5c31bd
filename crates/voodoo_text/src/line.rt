//! The tokens of a line, one after the other.

ghost use Rattle.std.specs.Prelude.{◌≡◌, ◌<◌, ◌≤◌, ◌^◌, [], ◌∷◌, length, MatchOption, IfSome, IsTrue, ◌↔◌};
ghost use Rattle.phrases.specs.Parsers.{next};
ghost use Rattle.voodoo_text.specs.Tokens as spec;
ghost use Rattle.voodoo_text.specs.Tokens.{tokens, tokens_from, HasForm};
ghost use Rattle.voodoo_text.specs.Places.{is};

use crate::kind::{Kind, same_kind};
use crate::lexis::{front, is_blank};
use std::marker::Model;

/// A token, and its bytes.
#[derive(Clone, Copy)]
pub struct Token<'a> {
    pub kind: Kind,
    pub word: &'a [u8],
}

/// What is still to be read of a line. Contracts see the list of its tokens.
#[derive(Drop)]
pub struct Line<'a> {
    rest: &'a [u8],
    /// Whether a name ends directly before it.
    after_name: bool,
}

impl<'a> Model for Line<'a> {
    ghost use Rattle.std.specs.Prelude.{List, ◌<◌, ◌^◌, length};
    ghost use Rattle.voodoo_text.specs.Tokens.{Token, tokens_from};

    ghost Value = { List Token };

    ghost view = { λ l. tokens_from l.after_name 0 l.rest.now };

    ghost invariant = { λ l. length l.rest.now < 2 ^ 32 };
}

impl<'a> Line<'a> {
    /// A whole line.
    pub(crate) fn new(line: &'a [u8]) -> Line<'a>
        requires { length line.now < 2 ^ 32 }
        ensures { result ≡ tokens line.now }
    {
        Line {
            rest: line,
            after_name: false,
        }
    }

    /// The same place of the line again.
    fn ahead(&self) -> Line<'a>
        ensures same { result ≡ self.now }
        ensures few { length self.now < 2 ^ 32 }
    {
        Line {
            rest: self.rest,
            after_name: self.after_name,
        }
    }

    /// Takes the next token; none at the line's end.
    pub(crate) fn take(&mut self) -> Option<Token<'a>>
        ensures tokens { MatchOption result ((self.old ≡ []) × (self.new ≡ [])) (λ t. self.old ≡ spec.token t.kind t.word.now ∷ self.new) }
        ensures form { IfSome result (λ t. HasForm t.kind t.word.now) }
    {
        let (rest, after_name) = skip_blanks(self.rest, self.after_name);
        if rest.is_empty() {
            self.rest = rest;
            return None;
        }
        let piece = front(after_name, rest);
        self.after_name = is_name(piece.kind);
        self.rest = &rest[piece.len..];
        Some(Token {
            kind: piece.kind,
            word: &rest[..piece.len],
        })
    }

    /// Whether the next token is of the kind.
    pub(crate) fn is_next(&self, kind: Kind) -> bool
        ensures { result ≡ next (is kind) self.now }
    {
        match self.ahead().take() {
            Some(token) => same_kind(token.kind, kind),
            None => false,
        }
    }

    /// Whether no token is left.
    pub(crate) fn is_at_end(&self) -> bool
        ensures { IsTrue result ↔ self.now ≡ [] }
    {
        self.ahead().take().is_none()
    }

    /// How many tokens are still to be read.
    pub(crate) fn left(&self) -> usize
        ensures value { result ≡ length self.now }
        ensures small { result < 2 ^ 32 }
    {
        let mut ahead = self.ahead();
        let mut count = 0;
        'tokens: while let Some(_token) = ahead.take() {
            count += 1;
        }
        count
    }
}

/// What stands from the first token on, behind blanks or a comment, and whether a name ends directly
/// before it.
fn skip_blanks(z: &[u8], after_name: bool) -> (&[u8], bool)
    ensures same { tokens_from after_name 0 z.now ≡ tokens_from result.1 0 result.0.now }
    ensures within { length result.0.now ≤ length z.now }
    ensures stops { spec.BeginsToken result.0.now }
{
    let mut rest = z;
    let mut directly = after_name;
    'blanks: while let [byte, others @ ..] = rest {
        if *byte == b'#' {
            return (b"", false);
        }
        if !is_blank(*byte) {
            return (rest, directly);
        }
        rest = others;
        directly = false;
    }
    (rest, directly)
}

/// Whether a token is a name.
fn is_name(kind: Kind) -> bool
    ensures { result ≡ spec.is_name kind }
{
    matches!(kind, Kind::Name)
}
