//! The laws of traces, each stated once, as a contract.

ghost use Rattle.attribute_origins.specs.Laws.{CheckedLaws, TraceLaws};

/// What the traces behind a program are is said by its parts, and no attribute reaches further than its vector.
pub fn trace_laws()
    ensures { TraceLaws }
{}

/// In a program that passes its check each attribute has a trace, which leads back to where it was made.
pub fn checked_laws()
    ensures { CheckedLaws }
{}
