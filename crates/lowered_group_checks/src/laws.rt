//! The laws of the statements that groups are written with, as contracts.

ghost use Rattle.lowered_group_checks.specs.Laws.{UseLaw, PassLaw};

/// Each statement is used where the groups' vector is wanted, and it reaches the rows'.
pub fn use_law()
    ensures { UseLaw }
{}

/// They pass the check behind the vector of the rows.
pub fn pass_law()
    ensures { PassLaw }
{}
