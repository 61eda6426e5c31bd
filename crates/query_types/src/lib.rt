//! Queries, typed: what each name, operator and clause of a query means over the tables of a catalog.
#![tactic(auto)]

mod conjuncts;
mod expr;
mod forms;
mod groups;
mod items;
mod kinds;
pub mod laws;
mod names;
mod ordering;
mod outcome;
mod query;
mod refusal;
mod scales;
mod scope;
mod sources;
mod stars;
mod typing;

pub use query::type_query;
pub use refusal::{TypeKind, TypeRefusal};
