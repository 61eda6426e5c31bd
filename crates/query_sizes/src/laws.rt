//! The law of sizes, stated once, as a contract.

ghost use Rattle.query_sizes.specs.Sizes.{SizeLaw};

/// A query's expressions have at most 2,176 nodes together, and it has at most 512 aggregates.
pub fn size_law()
    ensures { SizeLaw }
{}
