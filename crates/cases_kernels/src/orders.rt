//! Orders of four places.

ghost use Rattle.std.specs.Prelude.{IfOk};
ghost use Rattle.std.specs.Ordering.{int_cmp};
ghost use Rattle.std.specs.List.Sorted.{IsSorted};

use case_columns::show_slots;
use control_vectors::{Over, Slot, SlotSource};
use sort_order::{KeySource, OrderRefusal, order, partition_places};
use std::alloc::{AllocError, Global};

/// Four cells.
#[derive(Clone, Copy)]
struct Four {
    a: Result<Slot, Over>,
    b: Result<Slot, Over>,
    c: Result<Slot, Over>,
    d: Result<Slot, Over>,
}

impl SlotSource for Four {
    ghost use Rattle.std.specs.Prelude.{[], ◌∷◌};

    ghost cells = { λ s. s.a ∷ s.b ∷ s.c ∷ s.d ∷ [] };

    fn len(&self) -> u32 {
        4
    }

    fn slot(&self, i: u32) -> Result<Slot, Over> {
        match i {
            0 => self.a,
            1 => self.b,
            2 => self.c,
            _ => self.d,
        }
    }
}

/// Two keys of four cells, of which the second ascends.
#[derive(Clone, Copy)]
struct Two {
    first: Four,
    second: Four,
    descending: bool,
}

impl KeySource for Two {
    ghost use Rattle.std.specs.Prelude.{[], ◌∷◌, false};

    ghost keys = { λ s. record {
      descending = s.descending;
      cells = s.first.a ∷ s.first.b ∷ s.first.c ∷ s.first.d ∷ [];
    }
        ∷ record {
          descending = false;
          cells = s.second.a ∷ s.second.b ∷ s.second.c ∷ s.second.d ∷ [];
        } ∷ [] };

    ghost places = { λ s. 4 };

    fn count(&self) -> u32 {
        2
    }

    fn len(&self) -> u32 {
        4
    }

    fn descending(&self, k: u32) -> bool {
        k == 0 && self.descending
    }

    fn slot(&self, k: u32, i: u32) -> Result<Slot, Over> {
        if k == 0 {
            self.first.slot(i)
        } else {
            self.second.slot(i)
        }
    }
}

/// The cell of a word: a slot, or `over`.
fn cell(text: &str, k: usize) -> Result<Slot, Over> {
    match text.split_whitespace().nth(k).unwrap_or("") {
        "over" => Err(Over),
        word => Ok(word.parse::<i128>().ok()),
    }
}

/// The four cells from a place of a text on.
fn cells(text: &str, from: bool) -> Four {
    let k = usize::from(from);
    Four {
        a: cell(text, k),
        b: cell(text, k + 1),
        c: cell(text, k + 2),
        d: cell(text, k + 3),
    }
}

/// The numbers of a text, from the least up.
fn sorted(alloc: Global, text: &str) -> Result<Vec<i128>, AllocError>
    ensures { IfOk result (λ v. IsSorted int_cmp v.items) }
{
    let mut numbers = Vec::new(alloc);
    for word in text.split_whitespace() {
        numbers.push(word.parse::<i128>().unwrap_or(0))?;
    }
    numbers.sort_unstable();
    Ok(numbers)
}

pub fn answer(
    alloc: Global,
    name: &str,
    [first, second, third]: [&str; 3],
    to: &mut String,
) -> Result<(), AllocError> {
    if name == "order" {
        let descending = second.trim_start().starts_with("down");
        let keys = Two {
            first: cells(second, descending),
            second: cells(third, false),
            descending,
        };
        told(order(alloc, &cells(first, false), &keys), to)
    } else {
        let pivots = sorted(alloc, second)?;
        told(
            partition_places(alloc, &cells(first, false), pivots.as_slice()),
            to,
        )
    }
}

fn told(places: Result<Vec<Slot>, OrderRefusal>, to: &mut String) -> Result<(), AllocError> {
    match places {
        Ok(slots) => show_slots(to, slots.as_slice()),
        Err(OrderRefusal::Over) => to.push_str(" over"),
        Err(OrderRefusal::NoMemory) => Err(AllocError),
    }
}
