//! Where the columns and the aggregates of an expression stand in a vector.

ghost use Rattle.std.specs.Prelude.{◌≡◌};

use key_paths::Path;
use typed_trees::ColumnRef;

/// The attribute of a column.
#[derive(Drop)]
pub struct ColumnPlace {
    pub column: ColumnRef,
    pub path: Path,
}

/// The attribute of an aggregate, which is known by its place in the query's list.
#[derive(Drop)]
pub struct AggregatePlace {
    pub aggregate: u32,
    pub path: Path,
}

/// The path in a vector at which each column and each aggregate of an expression stands.
#[derive(Drop)]
pub struct Places {
    pub columns: Vec<ColumnPlace>,
    pub aggregates: Vec<AggregatePlace>,
}
