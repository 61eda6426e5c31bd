//! Cells as they are written in a case.

ghost use Rattle.std.specs.Prelude.{◌≤◌, IfOk, vec_len};
ghost use Rattle.std.specs.Ordering.{int_cmp};
ghost use Rattle.std.specs.List.Sorted.{IsSorted};

use control_vectors::{Over, Slot, SlotSource};
use std::alloc::{AllocError, Global};

/// At most a thousand cells.
#[derive(Drop)]
pub struct Cells {
    list: Vec<Result<Slot, Over>>,
    ghost few: { vec_len list ≤ 1000 },
}

impl Cells {
    /// The cells of a text: `-` for an empty slot, `over` for one that leaves 128 bits.
    pub fn of(alloc: Global, text: &str) -> Result<Cells, AllocError> {
        let mut list = Vec::new(alloc);
        for word in text.split_whitespace() {
            list.push(cell(word))?;
        }
        list.truncate(1000);
        Ok(Cells { list })
    }
}

impl SlotSource for Cells {
    ghost cells = { λ s. s.list.items };

    fn len(&self) -> u32 {
        self.list.len() as u32
    }

    fn slot(&self, i: u32) -> Result<Slot, Over> {
        self.list[i as usize]
    }
}

/// The cell of a word.
fn cell(word: &str) -> Result<Slot, Over> {
    match word {
        "over" => Err(Over),
        word => Ok(word.parse::<i128>().ok()),
    }
}

/// The numbers of a text, from the least up.
pub fn sorted(alloc: Global, text: &str) -> Result<Vec<i128>, AllocError>
    ensures { IfOk result (λ v. IsSorted int_cmp v.items) }
{
    let mut numbers = Vec::new(alloc);
    for word in text.split_whitespace() {
        numbers.push(word.parse::<i128>().unwrap_or(0))?;
    }
    numbers.sort_unstable();
    Ok(numbers)
}
