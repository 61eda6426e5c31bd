//! A cursor over tokens.

ghost use Rattle.std.specs.Prelude.{◌≡◌, [], ◌∷◌, length, MatchOption};
ghost use Rattle.phrases.specs.Parsers.{head};

use std::marker::Model;

/// The tokens that are still to be read. Contracts see them as a list.
#[derive(Drop)]
pub struct Cursor<'a, T> {
    ahead: &'a [T],
}

impl<'a, T> Model for Cursor<'a, T> {
    ghost use Rattle.std.specs.Prelude.{List};

    ghost Value = { List T };

    ghost view = { λ c. c.ahead.now };
}

impl<'a, T: Copy> Cursor<'a, T> {
    /// A cursor before the first of the tokens.
    pub fn new(tokens: &'a [T]) -> Cursor<'a, T>
        ensures { result ≡ tokens.now }
    {
        Cursor { ahead: tokens }
    }

    /// How many tokens are still to be read.
    pub fn left(&self) -> usize
        ensures { result ≡ length self.now }
    {
        self.ahead.len()
    }

    /// The next token, which stays; none at the end.
    pub fn first(&self) -> Option<T>
        ensures { result ≡ head self.now }
    {
        match self.ahead {
            [] => None,
            [t, ..] => Some(*t),
        }
    }

    /// Takes the next token; none at the end.
    pub fn take(&mut self) -> Option<T>
        ensures { MatchOption result ((self.old ≡ []) × (self.new ≡ [])) (λ t. self.old ≡ t ∷ self.new) }
    {
        match self.ahead {
            [] => None,
            [t, rest @ ..] => {
                self.ahead = rest;
                Some(*t)
            }
        }
    }
}
