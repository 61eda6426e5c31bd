//! Scatter: at each place the slot of the last that names it.
ghost use Rattle.std.specs.Prelude.{◌≡◌, length, replicate, None};
ghost use Rattle.slot_moves.specs.Moves.{place_in};
ghost use Rattle.move_kernels.specs.Kernels.{Writes, counted_from, put_at, scattered_from};

use crate::reading::read_rest;
use control_vectors::{Over, Slot, SlotSource};

/// Target slots `first` and on of the Scatter: at each place the source's slot at the last place whose position it is, empty where
/// no position is. `Over` exactly where a slot of the source is, or a position; `out` may then hold anything.
pub fn scatter_into<S: SlotSource, P: SlotSource>(
    source: &S,
    pos: &P,
    first: u32,
    out: &mut [Slot],
) -> Result<(), Over>
    ensures { Writes result (scattered_from (S.cells source.now) (P.cells pos.now) first (length out.old)) out.new }
{
    blank(out);
    let sources = source.len().min(pos.len());
    for j in 0..sources {
        let slot = source.slot(j)?;
        put(out, first, pos.slot(j)?, slot);
    }
    read_rest(source, sources)?;
    read_rest(pos, sources)
}

/// Makes all slots empty.
fn blank(out: &mut [Slot])
    ensures { out.new ≡ replicate (length out.old) None }
{
    out.fill(None);
}

/// Puts a slot at the place that a position names, counted from a first one.
#[inline]
fn put(out: &mut [Slot], first: u32, position: Slot, slot: Slot)
    ensures { out.new ≡ put_at (place_in (length out.old) (counted_from first position)) slot out.old }
{
    if let Some(k) = place_from(first, position, out.len()) {
        out[k] = slot;
    }
}

/// Which of `n` places from a first one on a position names.
#[inline]
fn place_from(first: u32, position: Slot, n: usize) -> Option<usize>
    ensures { result ≡ place_in n (counted_from first position) }
{
    let first = i128::from(first);
    match position {
        Some(p) if first <= p && p - first < n as i128 => Some((p - first) as usize),
        _ => None,
    }
}
