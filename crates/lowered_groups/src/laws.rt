//! The law of what is made of groups, as a contract.

ghost use Rattle.lowered_groups.specs.Laws.{RunLaw};

/// The part that writes the groups of rows makes them, with the values of their aggregates, or is Over exactly where one of these is.
pub fn groups_law()
    ensures { RunLaw }
{}
