//! Expressions as statements of the algebra.
#![tactic(auto)]

mod places;
mod statements;

pub use places::{AggregatePlace, ColumnPlace, Places};
pub use statements::{column_path, expr_statements, value_name};
