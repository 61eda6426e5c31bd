//! The trees of queries as they are meant.
//!
//! Who makes them and who reads them both stand on this crate, and on nothing of one another.
#![tactic(auto)]

mod copies;
mod kinds;
pub mod laws;
mod naming;
mod typed;

pub use copies::{
    copied, copied_aggregate, copied_aggregates, copied_all, copied_names, copied_option,
    copied_plain, copied_source, copied_sources,
};
pub use kinds::{Family, Kind, Role, family_of, kind_of, role_in};
pub use naming::{Wanted, any_names, names, same_column};
pub use typed::{
    Aggregate, AggregateKind, ColumnRef, ColumnType, KeyRef, OrderKey, PlanSource, TypedExpr,
    TypedQuery,
};
