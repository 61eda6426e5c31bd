//! Aggregates and directions by name.

use query_trees::{AggregateKind, Direction};

pub fn aggregate_name(kind: AggregateKind) -> &'static str {
    match kind {
        AggregateKind::Count => "COUNT",
        AggregateKind::Sum => "SUM",
        AggregateKind::Min => "MIN",
        AggregateKind::Max => "MAX",
        AggregateKind::Avg => "AVG",
    }
}

pub fn direction_name(direction: Direction) -> &'static str {
    match direction {
        Direction::Ascending => "ASC",
        Direction::Descending => "DESC",
    }
}
