//! Programs of the Voodoo vector algebra over structured vectors: what has to hold of them before they
//! run, how long each statement's vector is and which paths it has, and which statements are reached.
//!
//! The algebra is that of Pirk, Moll, Zaharia and Madden, "Voodoo - A Vector Algebra for Portable
//! Database Performance on Modern Hardware", PVLDB 9(14), 2016.
#![tactic(auto)]

use std::alloc::AllocError;

pub mod check;
mod drafts;
pub mod family;
mod faults;
pub mod index;
mod known;
pub mod laws;
mod making;
pub mod moving;
pub mod op;
pub mod order_keys;
pub mod ordered;
pub mod outline;
pub mod reach;
pub mod shape;

pub use check::ProgramRefusal;
pub use family::{Family, FoldOperator, RankOperator};
pub use op::{FoldArgs, Op, Operand, PairArgs, Program, ProgramKind, RankArgs, Size, Statement};
pub use order_keys::{OrderKeys, OrderPath};
pub use shape::Shape;

/// Memory ran out: the one refusal of a call that only allocates.
pub type NoMemory = AllocError;
