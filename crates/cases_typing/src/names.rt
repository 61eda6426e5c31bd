//! Aggregates and kinds of refusals by name.

use query_types::TypeKind;
use typed_trees::AggregateKind;

pub fn type_kind_name(kind: TypeKind) -> &'static str {
    match kind {
        TypeKind::UnknownTable => "UnknownTable",
        TypeKind::UnknownColumn => "UnknownColumn",
        TypeKind::Ambiguous => "Ambiguous",
        TypeKind::NameTwice => "NameTwice",
        TypeKind::TypesDiffer => "TypesDiffer",
        TypeKind::NotGrouped => "NotGrouped",
        TypeKind::NestedAggregate => "NestedAggregate",
        TypeKind::NotAKey => "NotAKey",
        TypeKind::ZeroDivisor => "ZeroDivisor",
        TypeKind::ScaleTooLarge => "ScaleTooLarge",
        TypeKind::NotColumns => "NotColumns",
        TypeKind::TooManyTables => "TooManyTables",
        TypeKind::TooManyItems => "TooManyItems",
        TypeKind::TooManyKeys => "TooManyKeys",
    }
}

pub fn aggregate_name(kind: AggregateKind) -> &'static str {
    match kind {
        AggregateKind::Count => "COUNT",
        AggregateKind::Sum => "SUM",
        AggregateKind::Min => "MIN",
        AggregateKind::Max => "MAX",
        AggregateKind::Avg => "AVG",
    }
}
