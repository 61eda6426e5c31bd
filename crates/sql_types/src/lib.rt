//! The catalog of a schema.
#![tactic(auto)]

mod catalog_of_schema;
mod finding;
pub mod laws;
mod nulls;
mod refusal;
mod rules;

pub use catalog_of_schema::Catalog;
pub use nulls::may_be_null;
pub use refusal::{SchemaKind, SchemaRefusal};
