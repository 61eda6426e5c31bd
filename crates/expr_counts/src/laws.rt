//! The counts of steps, each stated once, as a contract.

ghost use Rattle.expr_counts.specs.Counts.{FormLaw, NodeLaw, CountLaw};

/// Each form takes at most so many steps of its own, beside those of its operands.
pub fn form_law()
    ensures { FormLaw }
{}

/// These are at most four for each node, and three fewer in all.
pub fn node_law()
    ensures { NodeLaw }
{}

/// An expression takes at most four steps for each of its nodes.
pub fn count_law()
    ensures { CountLaw }
{}
