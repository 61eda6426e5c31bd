//! Worked plans, each table stated once, as a contract.

ghost use Rattle.rel_plan.specs.Examples.{GroupTable, PruneTable, WorkedPushes};

/// Which queries are answered by groups.
pub fn grouped()
    ensures { GroupTable }
{}

/// Conditions that move to their sources, and conditions that stay.
pub fn pushes()
    ensures { WorkedPushes }
{}

/// The columns that are left, by what names them.
pub fn prunes()
    ensures { PruneTable }
{}
