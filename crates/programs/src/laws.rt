//! The laws of checks and of reached statements, each stated once, as a contract.

ghost use Rattle.programs.specs.Laws.{CheckLaws, LimitLaw, MergeLaws, ReachLaws};

/// Checks compose, and statements leave what is known of other names alone.
pub fn check_laws()
    ensures { CheckLaws }
{}

/// Which statements are kept composes.
pub fn reach_laws()
    ensures { ReachLaws }
{}

/// The length that passes the limit first is the product or the size that the statement has.
pub fn limit_law()
    ensures { LimitLaw }
{}

/// Two ascending lists of paths as one are their sorted union.
pub fn merge_laws()
    ensures { MergeLaws }
{}
