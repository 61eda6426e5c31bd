//! Programs written part by part.
#![tactic(auto)]

pub mod laws;
pub mod operators;
pub mod paths;
mod writer;

pub use writer::Writer;
