//! What each operator gives for two slots.
ghost use Rattle.std.specs.Prelude.{◌≡◌};
ghost use Rattle.control_vectors.specs.Slots.{in_128_bits, or_over};
ghost use Rattle.control_vectors.specs.declared.PairKind.{PairKind};
ghost use Rattle.slot_wise.specs.Pairs.{pair_slot};

use control_vectors::{Over, Slot, add, floor_mod, mul, quot, sub};

/// A number that may be out of range, as a slot.
pub fn in_range(z: Option<i128>) -> Result<Slot, Over>
    ensures { result ≡ or_over z }
{
    match z {
        Some(z) => Ok(Some(z)),
        None => Err(Over),
    }
}

/// The sum.
pub fn added(x: Slot, y: Slot) -> Result<Slot, Over>
    ensures { result ≡ pair_slot PairKind.Add x y }
{
    match (x, y) {
        (Some(a), Some(b)) => in_range(add(a, b)),
        _ => Ok(None),
    }
}

/// The difference.
pub fn subtracted(x: Slot, y: Slot) -> Result<Slot, Over>
    ensures { result ≡ pair_slot PairKind.Subtract x y }
{
    match (x, y) {
        (Some(a), Some(b)) => in_range(sub(a, b)),
        _ => Ok(None),
    }
}

/// The product.
pub fn multiplied(x: Slot, y: Slot) -> Result<Slot, Over>
    ensures { result ≡ pair_slot PairKind.Multiply x y }
{
    match (x, y) {
        (Some(a), Some(b)) => in_range(mul(a, b)),
        _ => Ok(None),
    }
}

/// The quotient, truncated towards zero; empty where the divisor is 0.
pub fn divided(x: Slot, y: Slot) -> Result<Slot, Over>
    ensures { result ≡ pair_slot PairKind.Divide x y }
{
    match (x, y) {
        (Some(a), Some(b)) if b != 0 => in_range(quot(a, b)),
        _ => Ok(None),
    }
}

/// The rest in 0 to `y` - 1; empty where `y` is below 1.
pub fn reduced(x: Slot, y: Slot) -> Result<Slot, Over>
    ensures { result ≡ pair_slot PairKind.Modulo x y }
{
    match (x, y) {
        (Some(a), Some(b)) if b >= 1 => Ok(Some(floor_mod(a, b))),
        _ => Ok(None),
    }
}

/// 1 where the first is greater, else 0.
pub fn is_greater(x: Slot, y: Slot) -> Result<Slot, Over>
    ensures { result ≡ pair_slot PairKind.Greater x y }
{
    match (x, y) {
        (Some(a), Some(b)) => Ok(Some(i128::from(a > b))),
        _ => Ok(None),
    }
}

/// 1 where both are equal, else 0.
pub fn is_equal(x: Slot, y: Slot) -> Result<Slot, Over>
    ensures { result ≡ pair_slot PairKind.Equals x y }
{
    match (x, y) {
        (Some(a), Some(b)) => Ok(Some(i128::from(a == b))),
        _ => Ok(None),
    }
}

/// 0 where either is 0, else empty where either is empty, else 1.
pub fn both_hold(x: Slot, y: Slot) -> Result<Slot, Over>
    ensures { result ≡ pair_slot PairKind.LogicalAnd x y }
{
    match (x, y) {
        (Some(0), _) | (_, Some(0)) => Ok(Some(0)),
        (Some(_), Some(_)) => Ok(Some(1)),
        _ => Ok(None),
    }
}

/// 1 where either is nonempty and not 0, else empty where either is empty, else 0.
pub fn either_holds(x: Slot, y: Slot) -> Result<Slot, Over>
    ensures { result ≡ pair_slot PairKind.LogicalOr x y }
{
    match (x, y) {
        (Some(0), Some(0)) => Ok(Some(0)),
        (Some(0) | None, Some(0) | None) => Ok(None),
        _ => Ok(Some(1)),
    }
}

/// The first, or the second where the first is empty.
pub fn filled(x: Slot, y: Slot) -> Result<Slot, Over>
    ensures { result ≡ pair_slot PairKind.Fill x y }
{
    Ok(x.or(y))
}
