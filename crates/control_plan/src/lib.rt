//! Control plans: how a query is to be computed, where its answer leaves that open.
//!
//! In Pirk, Moll, Zaharia and Madden, "Voodoo - A Vector Algebra for Portable Database Performance on
//! Modern Hardware", PVLDB 9(14), 2016, control vectors say where a fold's runs begin, and so how much
//! of it can be done side by side. A plan has those that a query's program is made with, and how
//! the program is run.
#![tactic(auto)]

pub mod choices;
pub mod examples;
mod fault;
mod given;
mod lines;
mod numbers;
pub mod plan;
mod reading;
mod refusal;
mod setting;
mod words;

pub use choices::{Grouping, Kernel, Split};
pub use plan::ControlPlan;
pub use reading::read_control;
pub use refusal::{ControlKind, ControlRefusal};

/// Memory ran out: the one refusal of a call that only allocates.
pub type NoMemory = std::alloc::AllocError;
