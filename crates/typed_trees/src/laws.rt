//! The law of scales, and worked types and names, each stated once, as a contract.

ghost use Rattle.typed_trees.specs.Examples.{FoldedTable, NameTable, SideTable, TypeTable};
ghost use Rattle.typed_trees.specs.Laws.{ScaleLaw};

/// The types of expressions.
pub fn types()
    ensures { TypeTable }
{}

/// The types of aggregates.
pub fn folded()
    ensures { FoldedTable }
{}

/// Where text literals stand.
pub fn sides()
    ensures { SideTable }
{}

/// What expressions name.
pub fn named()
    ensures { NameTable }
{}

/// The scale of an expression's type is the expression's own.
pub fn scale_law()
    ensures { ScaleLaw }
{}
