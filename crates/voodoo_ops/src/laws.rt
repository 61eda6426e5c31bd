//! The laws of a program's meaning, stated once, as a contract.

ghost use Rattle.voodoo_ops.specs.Laws.{MeaningLaws};

/// Programs compose, statements leave the vectors of other names alone, a program all of whose
/// statements are reached means what they make in order, and the outlines that a check gives are those
/// of the vectors that a run makes.
pub fn meaning_laws()
    ensures { MeaningLaws }
{}
