//! The laws of names, stated once, as a contract.

ghost use Rattle.program_writers.specs.Laws.{NameLaws};

/// A name has one number, so that names of two numbers differ.
pub fn name_laws()
    ensures { NameLaws }
{}
