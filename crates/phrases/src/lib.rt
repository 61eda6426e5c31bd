//! Grammars as phrases, the parsers beside them, and the first token that a grammar cannot take.
//!
//! A phrase is a rule of a grammar as a relation between lists of tokens and values; a parser takes tokens from the front of a list or refuses one of them. Both are definitions for contracts, over any type of tokens and any type of faults, with the lemmas that say when a parser reads exactly its phrase. What runs is the [`Cursor`] over the tokens and the [`ReadError`].
#![tactic(auto)]

mod cursor;
mod refusal;

pub use cursor::Cursor;
pub use refusal::ReadError;
