//! The laws of values over a base and of the rows that conditions keep, each stated once, as a contract.

ghost use Rattle.lowered_kept.specs.Values.{ValuePasses, ValueUses};
ghost use Rattle.lowered_stages.specs.Parts.{KeptPasses, KeptUses};

use expr_counts::laws::count_law;

/// The value of an expression over a base passes the check.
pub fn value_passes()
    ensures { ValuePasses }
{
    count_law();
}

/// Its statements are used.
pub fn value_uses()
    ensures { ValueUses }
{}

/// The part that keeps the rows for which conditions are true passes the check.
pub fn kept_passes()
    ensures { KeptPasses }
{
    value_passes();
}

/// Its statements are used.
pub fn kept_uses()
    ensures { KeptUses }
{}
