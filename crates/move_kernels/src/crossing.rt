//! Cross: the places of the pairs of two lists.
ghost use Rattle.std.specs.Prelude.{◌≡◌, ◌+◌, ◌≤◌, ◌^◌, length};
ghost use Rattle.move_kernels.specs.Kernels.{crossed_from, side_of};

use control_vectors::Slot;

/// Slots `first` and on of the Cross with a list of `m` places: of pair `i` the place `i` div `m` of the first list where `left`
/// says so, else the place `i` mod `m` of the second.
pub fn cross_into(m: u32, left: bool, first: u32, out: &mut [Slot])
    requires some { 1 ≤ m }
    requires few { first + length out.old ≤ 2 ^ 22 }
    ensures { out.new ≡ crossed_from m left first (length out.old) }
{
    for k in 0..out.len() {
        out[k] = Some(i128::from(place_of(m, left, first + k as u32)));
    }
}

/// The place of one of a pair.
#[inline]
fn place_of(m: u32, left: bool, i: u32) -> u32
    requires { 1 ≤ m }
    ensures { result ≡ side_of left m i }
{
    if left { i / m } else { i % m }
}
