//! Checksums of tables.

ghost use Rattle.std.specs.Prelude.{◌<◌};

use case_text::show_count;
use std::alloc::AllocError;

/// How many bytes there are, and their checksum.
pub fn show_sum(out: &mut String, bytes: &[u8]) -> Result<(), AllocError> {
    show_count(out, bytes.len() as u128)?;
    out.push_str(" bytes, Adler-32 ")?;
    show_count(out, u128::from(adler_32(bytes)))
}

/// The Adler-32 checksum of some bytes (RFC 1950).
fn adler_32(bytes: &[u8]) -> u32 {
    let mut low: u32 = 1;
    let mut high: u32 = 0;
    for b in bytes {
        low = (low + u32::from(*b)) % 65521;
        high = (high + low) % 65521;
    }
    high * 65536 + low
}
