//! Cross: the places of the pairs of two lists.
ghost use Rattle.std.specs.Prelude.{◌≡◌, ◌*◌, ◌^◌, ◌≤◌, pos};
ghost use Rattle.control_vectors.specs.Controls.{control_of};
ghost use Rattle.slot_moves.specs.Crosses.{left_places, right_places};

use control_vectors::ControlVector;
use struct_vectors::Column;

/// Of each pair of one of `n` places and one of `m`, the first one's: `i` div `m`.
pub fn left_column(n: u32, m: u32) -> Column
    requires few { m ≤ 2 ^ 22 }
    requires short { n * m ≤ 2 ^ 22 }
    ensures { result.slots ≡ left_places n m }
{
    Column::control(counter(0, u64::from(m.max(1))), n * m)
}

/// Of each pair of one of `n` places and one of `m`, the second one's: `i` mod `m`.
pub fn right_column(n: u32, m: u32) -> Column
    requires few { m ≤ 2 ^ 22 }
    requires short { n * m ≤ 2 ^ 22 }
    ensures { result.slots ≡ right_places n m }
{
    Column::control(counter(u64::from(m), 1), n * m)
}

/// The control vector of the numbers 0, 1, 2 and so on, divided and reduced.
fn counter(modulus: u64, divisor: u64) -> ControlVector
    requires modulus { modulus ≤ 2 ^ 31 }
    requires from { 1 ≤ divisor }
    requires to { divisor ≤ 2 ^ 31 }
    ensures { result ≡ control_of (pos 0) 1 modulus divisor }
{
    match ControlVector::new(0, 1, modulus, divisor) {
        Some(v) => v,
        None => unreachable!(),
    }
}
