//! Sources that are read to see whether a place is Over.
ghost use Rattle.std.specs.Prelude.{drop};
ghost use Rattle.control_vectors.specs.Slots.{has_over};
ghost use Rattle.sort_order.specs.Answers.{Clear};

use control_vectors::{Over, SlotSource};

/// Reads the places from one on: `Over` exactly where one of them is.
pub(crate) fn read_rest<S: SlotSource>(source: &S, from: u32) -> Result<(), Over>
    ensures { Clear result (has_over (drop from (S.cells source.now))) }
{
    for i in from..source.len() {
        source.slot(i)?;
    }
    Ok(())
}
