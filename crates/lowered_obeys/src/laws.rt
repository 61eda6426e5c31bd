//! The law, as a contract.

ghost use Rattle.lowered_obeys.specs.Laws.{ObeyLaw};

use lowered_premises::laws::{column_law, places_law, source_law};

/// The program of a plan that can be lowered obeys each control plan without a layout and without levels, by sorting.
pub fn obey_law()
    ensures { ObeyLaw }
{
    source_law();
    column_law();
    places_law();
}
