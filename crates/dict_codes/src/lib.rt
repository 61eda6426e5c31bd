//! Dictionaries of texts: a text is known by the number of texts below it.
#![tactic(auto)]

mod dictionary;

pub use dictionary::Dictionary;
