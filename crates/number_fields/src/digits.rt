//! The values of digits, told apart below 10^18.

ghost use Rattle.std.specs.Prelude.{◌≡◌, ◌≤◌, ◌^◌, ◌*◌};
ghost use Rattle.number_fields.specs.Capped.{capped, capped_after};
ghost use Rattle.number_fields.specs.Decimals.{at_most_18};

/// 10^18, which stands for itself and all that is above.
pub const MOST: u64 = 1_000_000_000_000_000_000;

/// The value of digits that stand behind others of this value; none where a byte is no digit.
pub fn value_after(value: u64, digits: &[u8]) -> Option<u64>
    requires { value ≤ 1_000_000_000_000_000_000 }
    ensures { result ≡ capped_after value digits.now }
{
    let mut value = value;
    'digits: for c in digits {
        if *c < b'0' || *c > b'9' {
            return None;
        }
        value = (value * 10 + (*c - b'0') as u64).min(MOST);
    }
    Some(value)
}

/// A value times a power of ten.
pub fn scaled(value: u64, places: u32) -> u64
    requires { value ≤ 1_000_000_000_000_000_000 }
    ensures { result ≡ capped (value * 10 ^ places) }
{
    if value == 0 || places == 0 {
        value
    } else if places > 18 {
        MOST
    } else {
        let product = value as u128 * power_of_ten(places) as u128;
        product.min(MOST as u128) as u64
    }
}

/// A power of ten, up to 10^18.
pub fn power_of_ten(places: u32) -> u64
    ensures power { result ≡ 10 ^ at_most_18 places }
    ensures most { result ≤ 1_000_000_000_000_000_000 }
{
    match places {
        0 => 1,
        1 => 10,
        2 => 100,
        3 => 1_000,
        4 => 10_000,
        5 => 100_000,
        6 => 1_000_000,
        7 => 10_000_000,
        8 => 100_000_000,
        9 => 1_000_000_000,
        10 => 10_000_000_000,
        11 => 100_000_000_000,
        12 => 1_000_000_000_000,
        13 => 10_000_000_000_000,
        14 => 100_000_000_000_000,
        15 => 1_000_000_000_000_000,
        16 => 10_000_000_000_000_000,
        17 => 100_000_000_000_000_000,
        _ => MOST,
    }
}
