//! Gather: slots by position.
ghost use Rattle.std.specs.Prelude.{◌≡◌, ◌+◌, ◌≤◌, false, length, Ok};
ghost use Rattle.control_vectors.specs.Slots.{has_over, slots_in};
ghost use Rattle.slot_moves.specs.Moves.{place_in, slot_at};
ghost use Rattle.move_kernels.specs.Kernels.{Writes, gathered_from};

use crate::reading::read_rest;
use control_vectors::{Over, Slot, SlotSource};

/// Slots `first` and on of the Gather: the source's slot at each position, empty where the position is and where it is no place of
/// the source. `Over` exactly where a slot of the source is, or one of these positions; `out` may then hold anything.
pub fn gather_into<S: SlotSource, P: SlotSource>(
    source: &S,
    pos: &P,
    first: u32,
    out: &mut [Slot],
) -> Result<(), Over>
    requires { first + length out.old ≤ length (P.cells pos.now) }
    ensures { Writes result (gathered_from (S.cells source.now) (P.cells pos.now) first (length out.old)) out.new }
{
    read_rest(source, 0)?;
    prove!(first as usize + out.len() <= pos.len() as usize);
    for k in 0..out.len() {
        let position = pos.slot(first + k as u32)?;
        out[k] = slot_of(source, position)?;
    }
    Ok(())
}

/// The slot at a position.
#[inline]
fn slot_of<S: SlotSource>(source: &S, position: Slot) -> Result<Slot, Over>
    requires { has_over (S.cells source.now) ≡ false }
    ensures { result ≡ Ok (slot_at (slots_in (S.cells source.now)) position) }
{
    match place_of(position, source.len()) {
        Some(i) => source.slot(i),
        None => Ok(None),
    }
}

/// The place that a position names among `n`.
#[inline]
fn place_of(position: Slot, n: u32) -> Option<u32>
    ensures { result ≡ place_in n position }
{
    match position {
        Some(p) if 0 <= p && p < i128::from(n) => Some(p as u32),
        _ => None,
    }
}
