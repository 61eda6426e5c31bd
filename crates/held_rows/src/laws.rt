//! The laws of rows that vectors hold, each stated once, as a contract.

ghost use Rattle.held_rows.specs.Laws.{SelectLaw, OrderLaw};
ghost use Rattle.held_rows.specs.Vectors.{VectorLaws, PairLaws};

/// In whatever runs, the rows for which a truth holds are gathered.
pub fn select_law<A>()
    ensures { SelectLaw A }
{}

/// The places are sorted as the rows that stand there.
pub fn order_law<A>()
    ensures { OrderLaw A }
{}

/// What Range, Upsert, Project and Gather make holds rows again.
pub fn vector_laws<A>()
    ensures { VectorLaws A }
{}

/// An operator that works slot by slot works row by row.
pub fn pair_laws<A>()
    ensures { PairLaws A }
{}
