//! Columns of slots.
ghost use Rattle.std.specs.Prelude.{◌≡◌, ◌≢◌, ◌^◌, ◌<◌, ◌≤◌, false, Some, length, map, slice_get, take, vec_len, IfOk, MatchOption};
ghost use Rattle.control_vectors.specs.Slots.{cells_of};
ghost use Rattle.control_vectors.specs.Controls.{control_list};
ghost use Rattle.struct_vectors.specs.Columns.{ColumnValue, some_slots, marked_slots, narrow, narrow_with_empties, wide, wide_with_empties, symbolic, IsNarrow, IsNoControl};
ghost use Rattle.struct_vectors.specs.Makers.{MayKeep};

use crate::NoMemory;
use crate::forms::Form;
use control_vectors::{ControlVector, Over, Slot, SlotSource};
use std::alloc::Global;
use std::marker::Model;

/// A list of at most 2^22 slots. Whole numbers that fit 64 bits may be kept narrow, at 8 bytes a
/// slot, or 9 where some slots are empty. A control vector takes four numbers, whatever its length.
#[derive(Drop)]
pub struct Column {
    form: Form,
}

impl Model for Column {
    ghost use Rattle.struct_vectors.specs.Columns.{ColumnValue};

    ghost Value = { ColumnValue };

    ghost use Rattle.struct_vectors.specs.Forms.{value_of, IsWhole};

    ghost view = { λ c. value_of c.form };

    ghost invariant = { λ c. IsWhole c.form };
}

impl Column {
    /// The numbers, each a slot that is not empty, in 8 bytes each.
    pub fn narrow(numbers: Vec<i64>) -> Column
        requires { vec_len numbers ≤ 2 ^ 22 }
        ensures { result ≡ record { slots = some_slots numbers.items; form = narrow } }
    {
        Column {
            form: Form::Narrow(numbers),
        }
    }

    /// The numbers whose mark is set, and an empty slot for each other one.
    pub fn narrow_with_empties(numbers: Vec<i64>, marks: Vec<bool>) -> Column
        requires few { vec_len numbers ≤ 2 ^ 22 }
        requires lengths { vec_len marks ≡ vec_len numbers }
        ensures { result ≡ record {
          slots = marked_slots numbers.items marks.items;
          form = narrow_with_empties;
        } }
    {
        Column {
            form: Form::NarrowWithEmpties(numbers, marks),
        }
    }

    /// The numbers, each a slot that is not empty, in 16 bytes each.
    pub fn wide(numbers: Vec<i128>) -> Column
        requires { vec_len numbers ≤ 2 ^ 22 }
        ensures { result ≡ record { slots = some_slots numbers.items; form = wide } }
    {
        Column {
            form: Form::Wide(numbers),
        }
    }

    /// The numbers whose mark is set, and an empty slot for each other one.
    pub fn wide_with_empties(numbers: Vec<i128>, marks: Vec<bool>) -> Column
        requires few { vec_len numbers ≤ 2 ^ 22 }
        requires lengths { vec_len marks ≡ vec_len numbers }
        ensures { result ≡ record {
          slots = marked_slots numbers.items marks.items;
          form = wide_with_empties;
        } }
    {
        Column {
            form: Form::WideWithEmpties(numbers, marks),
        }
    }

    /// The values of `v` at places 0 to `n` - 1.
    pub fn control(v: ControlVector, n: u32) -> Column
        requires { n ≤ 2 ^ 22 }
        ensures { result ≡ record { slots = some_slots (control_list v n); form = symbolic v } }
    {
        Column {
            form: Form::Symbolic(v, n),
        }
    }

    /// How many slots there are.
    #[inline]
    pub fn len(&self) -> u32
        ensures len { result ≡ length self.now.slots }
        ensures bounded { length self.now.slots ≤ 2 ^ 22 }
    {
        self.form.len()
    }

    /// The slot at place `i`.
    #[inline]
    pub fn get(&self, i: u32) -> Slot
        requires { i < length self.now.slots }
        ensures slot { slice_get self.now.slots i ≡ Some result }
        ensures narrow { IsNarrow self.now.form → MayKeep false result }
        ensures bounded { length self.now.slots ≤ 2 ^ 22 }
    {
        self.form.slot(i)
    }

    /// The numbers, where they are kept in 64 bits and no slot is empty.
    pub fn narrow_slice(&self) -> Option<&[i64]>
        ensures { MatchOption result (self.now.form ≢ narrow)
            (λ numbers. (self.now.form ≡ narrow) × (self.now.slots ≡ some_slots numbers.now) × (length numbers.now ≤ 2 ^ 22)) }
    {
        match &self.form {
            Form::Narrow(numbers) => Some(numbers.as_slice()),
            _ => None,
        }
    }

    /// The numbers and their marks, where they are kept in 64 bits and some slot may be empty.
    pub fn marked_slices(&self) -> Option<(&[i64], &[bool])>
        ensures { MatchOption result (self.now.form ≢ narrow_with_empties)
            (λ pair. (self.now.form ≡ narrow_with_empties) × (self.now.slots ≡ marked_slots pair.0.now pair.1.now)
            × (length pair.1.now ≡ length pair.0.now) × (length pair.0.now ≤ 2 ^ 22)) }
    {
        match &self.form {
            Form::NarrowWithEmpties(numbers, marks) => {
                Some((numbers.as_slice(), marks.as_slice()))
            }
            _ => None,
        }
    }

    /// The control vector whose values the slots are, where they are kept so.
    pub fn control_vector(&self) -> Option<ControlVector>
        ensures { MatchOption result (IsNoControl self.now.form) (λ v. self.now.form ≡ symbolic v) }
    {
        match &self.form {
            Form::Symbolic(v, _) => Some(*v),
            _ => None,
        }
    }

    /// A column of the first `n` slots, kept in the same way.
    pub fn front(&self, alloc: Global, n: u32) -> Result<Column, NoMemory>
        requires { n ≤ length self.now.slots }
        ensures { IfOk result (λ column. column ≡ record {
          slots = take n self.now.slots;
          form = self.now.form;
        }) }
    {
        Ok(Column {
            form: self.form.front(alloc, n)?,
        })
    }

    /// Another column with the same slots, kept in the same way.
    pub fn copied(&self, alloc: Global) -> Result<Column, NoMemory>
        ensures { IfOk result (λ column. column ≡ self.now) }
    {
        Ok(Column {
            form: self.form.copied(alloc)?,
        })
    }
}

/// A column gives its slots, and is never `Over`.
impl SlotSource for Column {
    ghost cells = { λ c. cells_of c.slots };

    fn len(&self) -> u32 {
        Column::len(self)
    }

    fn slot(&self, i: u32) -> Result<Slot, Over> {
        Ok(self.get(i))
    }
}
