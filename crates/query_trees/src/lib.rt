//! The trees of queries, as they are written.
//!
//! Who makes trees and who reads them both stand on this crate, and on nothing of one another.
#![tactic(auto)]

mod clauses;
mod expr;
mod query;

pub use clauses::{
    Alias, Direction, Join, JoinKind, SelectItem, SelectList, SortBy, SortKey, Source, TableName,
};
pub use expr::{AggregateKind, BinaryOp, ColumnName, Divisor, Expr, Form, Polarity, Sign, node};
pub use query::Query;
