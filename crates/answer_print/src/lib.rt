//! The answer of a query as text: the output names, then a row for each marked place of the vector that holds the answer.
#![tactic(auto)]

pub mod answers;
pub mod dates;
pub mod fields;
pub mod items;
pub mod kinds;
pub mod laws;
pub mod numbers;
pub mod rows;
mod scales;

pub use answers::write_answer;

/// Memory ran out: the one refusal of a call that only allocates.
pub type NoMemory = std::alloc::AllocError;
