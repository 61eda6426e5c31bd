//! What the operators that work slot by slot read.
ghost use Rattle.std.specs.Prelude.{◌≡◌, ◌≤◌, ◌^◌};
ghost use Rattle.slot_wise.specs.Sources.{source_at, source_len};

use control_vectors::Slot;
use struct_vectors::Column;

/// What an operand gives for each place: a column its slots, a number itself.
#[derive(Clone, Copy)]
pub enum Source<'a> {
    Column(&'a Column),
    Number(i128),
}

/// The length of the shorter column; 0 where there is none.
pub fn common_len(x: Source, y: Source) -> u32
    ensures len { result ≡ source_len x.entry y.entry }
    ensures bounded { result ≤ 2 ^ 22 }
{
    match (x, y) {
        (Source::Column(c), Source::Column(d)) => c.len().min(d.len()),
        (Source::Column(c), Source::Number(_)) => c.len(),
        (Source::Number(_), Source::Column(d)) => d.len(),
        (Source::Number(_), Source::Number(_)) => 0,
    }
}

/// The slot at a place: the number itself, or the column's, which is empty past its end.
pub fn slot_of(x: Source, i: u32) -> Slot
    ensures { result ≡ source_at x.entry i }
{
    match x {
        Source::Number(z) => Some(z),
        Source::Column(c) => { if i < c.len() { c.get(i) } else { None } }
    }
}
