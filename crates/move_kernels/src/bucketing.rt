//! Bucket: how many pivots are not above each key.
ghost use Rattle.std.specs.Prelude.{◌+◌, ◌≤◌, length};
ghost use Rattle.std.specs.List.Sorted.{IsSorted};
ghost use Rattle.std.specs.Ordering.{int_cmp};
ghost use Rattle.move_kernels.specs.Kernels.{Writes, bucketed_from};

use control_vectors::{Over, Slot, SlotSource};
use sort_order::bucket_of;

/// Slots `first` and on of the Bucket: how many of the pivots, which ascend, are not above each key, empty for an empty key. `Over`
/// exactly where one of these keys is; `out` may then hold anything.
pub fn bucket_into<K: SlotSource>(
    key: &K,
    pivots: &[i128],
    first: u32,
    out: &mut [Slot],
) -> Result<(), Over>
    requires ascend { IsSorted int_cmp pivots.now }
    requires within { first + length out.old ≤ length (K.cells key.now) }
    ensures { Writes result (bucketed_from pivots.now (K.cells key.now) first (length out.old)) out.new }
{
    prove!(first as usize + out.len() <= key.len() as usize);
    for k in 0..out.len() {
        let s = key.slot(first + k as u32)?;
        out[k] = bucket_of(pivots, s);
    }
    Ok(())
}
