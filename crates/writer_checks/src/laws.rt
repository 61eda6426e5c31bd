//! The laws of checks, each stated once, as a contract.

ghost use Rattle.writer_checks.specs.Laws.{KeptLaw, OperatorLaws, StillLaw};
ghost use Rattle.writer_checks.specs.Paths.{PathLaws};

/// What is known of a vector stays known where its name is left alone.
pub fn kept_law()
    ensures { KeptLaw }
{}

/// It stays known where all names that were there are left alone.
pub fn still_law()
    ensures { StillLaw }
{}

/// Each operator passes where the vectors that it reads have the paths that it reads.
pub fn operator_laws()
    ensures { OperatorLaws }
{}

/// Paths of a segment or two are apart where their words or numbers differ, and nothing stands above them beside others like them.
pub fn path_laws()
    ensures { PathLaws }
{}
