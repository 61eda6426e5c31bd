//! The law of shapes, stated once, as a contract.

ghost use Rattle.query_shapes.specs.Laws.{ShapeLaw};

/// A query that has a typed form has 1 to 8 tables, none with a condition of its own, at most 64 items, 4 group columns and 8 keys, and no HAVING
/// without group columns, where the query that was read has none without GROUP BY.
pub fn shape_law()
    ensures { ShapeLaw }
{}
