//! The text of programs of the Voodoo vector algebra, read and printed.
//!
//! A program is written with one statement on a line, as in
//!
//! ```text
//! t = Load(t)             # the table
//! h = Divide(t.a, 2, .h)
//! Persist(out, h)
//! ```
//!
//! [`read_program`] reads that text, in whatever way it is spaced, or says which line is refused and
//! why. [`program_text`] prints the one canonical spelling of a program: one blank on each side of
//! `=` and after each `,`, none elsewhere, numbers without leading zeros, and a line feed at the end
//! of each line. The operators are those of Pirk, Moll, Zaharia and Madden, "Voodoo - A Vector
//! Algebra for Portable Database Performance on Modern Hardware", PVLDB 9(14), 2016.
#![tactic(auto)]

use std::alloc::AllocError;

mod argument;
mod calls;
mod kind;
pub mod laws;
mod lexis;
mod line;
mod operator;
mod places;
mod printing;
mod read_text;
mod refusal;
mod statements;
mod values;

pub use printing::program_text;
pub use read_text::{LineNumbers, ReadProgram, read_program};
pub use refusal::{TextKind, TextRefusal};

/// Memory ran out: the one refusal of a call that only allocates.
pub type NoMemory = AllocError;
