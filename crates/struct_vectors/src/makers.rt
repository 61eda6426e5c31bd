//! Makers of columns, one slot after another.
ghost use Rattle.std.specs.Prelude.{◌≡◌, ◌+◌, ◌++◌, ◌∷◌, [], ◌^◌, ◌<◌, ◌≤◌, length, vec_len, vec_capacity, IfOk};
ghost use Rattle.struct_vectors.specs.Columns.{ColumnValue, has_empty, listed_form};
ghost use Rattle.struct_vectors.specs.Makers.{MakerValue, MayKeep};
ghost use Rattle.struct_vectors.specs.Numbers.{numbers_in, is_wide, capacity_of, MayHold};

use crate::NoMemory;
use crate::columns::Column;
use control_vectors::Slot;
use std::alloc::Global;
use std::marker::Model;

/// The numbers of the slots so far, 0 for an empty one.
#[derive(Drop)]
pub enum Numbers {
    Narrow(Vec<i64>),
    Wide(Vec<i128>),
}

impl Numbers {
    /// Appends a number. It takes no memory.
    #[inline]
    fn push(&mut self, x: i128)
        requires room { length (numbers_in self.old) < capacity_of self.old }
        requires fits { MayHold (is_wide self.old) x }
        ensures numbers { numbers_in self.new ≡ numbers_in self.old ++ x ∷ [] }
        ensures wide { is_wide self.new ≡ is_wide self.old }
        ensures capacity { capacity_of self.old ≤ capacity_of self.new }
    {
        match self {
            Numbers::Narrow(numbers) => {
                let _ = numbers.push(x as i64);
            }
            Numbers::Wide(numbers) => {
                let _ = numbers.push(x);
            }
        }
    }
}

/// Appends a mark. It takes no memory.
#[inline]
fn push_mark(marks: &mut Vec<bool>, mark: bool)
    requires { vec_len marks.old < vec_capacity marks.old }
    ensures marks { marks.new.items ≡ marks.old.items ++ mark ∷ [] }
    ensures len { vec_len marks.new ≡ vec_len marks.old + 1 }
    ensures capacity { vec_capacity marks.old ≤ vec_capacity marks.new }
{
    let _ = marks.push(mark);
}

/// A column in the making. The memory for its slots is taken at the start, so that no slot asks for
/// any.
#[derive(Drop)]
pub struct ColumnMaker {
    room: u32,
    numbers: Numbers,
    marks: Vec<bool>,
    some_empty: bool,
}

impl Model for ColumnMaker {
    ghost use Rattle.struct_vectors.specs.Makers.{MakerValue};

    ghost Value = { MakerValue };

    ghost use Rattle.struct_vectors.specs.Making.{made_of, IsReady};

    ghost view = { λ m. made_of m };

    ghost invariant = { λ m. IsReady m };
}

impl ColumnMaker {
    /// A maker with room for `n` slots, in 128 bits where `wide`, else in 64.
    pub fn with_room(alloc: Global, n: u32, wide: bool) -> Result<ColumnMaker, NoMemory>
        requires { n ≤ 2 ^ 22 }
        ensures { IfOk result (λ maker. maker ≡ record { room = n; wide = wide; slots = [] }) }
    {
        let numbers = if wide {
            Numbers::Wide(Vec::with_capacity(alloc, n as usize)?)
        } else {
            Numbers::Narrow(Vec::with_capacity(alloc, n as usize)?)
        };
        Ok(ColumnMaker {
            room: n,
            numbers,
            marks: Vec::with_capacity(alloc, n as usize)?,
            some_empty: false,
        })
    }

    /// Appends a slot. It takes no memory.
    #[inline]
    pub fn push(&mut self, s: Slot)
        requires room { length self.old.slots < self.old.room }
        requires fits { MayKeep self.old.wide s }
        ensures { self.new ≡ record self.old { slots = self.old.slots ++ s ∷ [] } }
    {
        self.numbers.push(s.unwrap_or(0));
        push_mark(&mut self.marks, s.is_some());
        self.some_empty = self.some_empty | s.is_none();
    }

    /// The column of the slots that were pushed: in 64 bits where the maker isn't wide, and with
    /// marks where some slot is empty.
    pub fn done(self) -> Column
        ensures { result ≡ record {
          slots = self.slots;
          form = listed_form self.wide (has_empty self.slots);
        } }
    {
        let ColumnMaker {
            room: _,
            numbers,
            marks,
            some_empty,
        } = self;
        match numbers {
            Numbers::Narrow(numbers) if some_empty => Column::narrow_with_empties(numbers, marks),
            Numbers::Narrow(numbers) => Column::narrow(numbers),
            Numbers::Wide(numbers) if some_empty => Column::wide_with_empties(numbers, marks),
            Numbers::Wide(numbers) => Column::wide(numbers),
        }
    }
}
