//! How a column's slots are kept.
ghost use Rattle.std.specs.Prelude.{◌≡◌, ◌<◌, ◌≤◌, false, Some, length, slice_get, take, vec_len, IfOk};
ghost use Rattle.control_vectors.specs.Controls.{control_list};
ghost use Rattle.struct_vectors.specs.Columns.{IsNarrow, some_slots, marked_slot, marked_slots};
ghost use Rattle.struct_vectors.specs.Makers.{MayKeep};
ghost use Rattle.struct_vectors.specs.Forms.{value_of, IsWhole, IsCopyOf, IsFrontOf};

use crate::NoMemory;
use control_vectors::{ControlVector, Slot};
use std::alloc::Global;

/// What a column keeps. Where it has empty slots, a mark per slot stands beside the numbers: whether
/// the slot has one.
#[derive(Drop)]
pub enum Form {
    Narrow(Vec<i64>),
    NarrowWithEmpties(Vec<i64>, Vec<bool>),
    Wide(Vec<i128>),
    WideWithEmpties(Vec<i128>, Vec<bool>),
    Symbolic(ControlVector, u32),
}

impl Form {
    /// How many slots there are.
    #[inline]
    pub fn len(&self) -> u32
        requires { IsWhole self.now }
        ensures { result ≡ length (value_of self.now).slots }
    {
        match self {
            Form::Narrow(numbers) => numbers.len() as u32,
            Form::NarrowWithEmpties(numbers, _) => numbers.len() as u32,
            Form::Wide(numbers) => numbers.len() as u32,
            Form::WideWithEmpties(numbers, _) => numbers.len() as u32,
            Form::Symbolic(_, n) => *n,
        }
    }

    /// The slot at place `i`.
    #[inline]
    pub fn slot(&self, i: u32) -> Slot
        requires whole { IsWhole self.now }
        requires within { i < length (value_of self.now).slots }
        ensures slot { slice_get (value_of self.now).slots i ≡ Some result }
        ensures narrow { IsNarrow (value_of self.now).form → MayKeep false result }
    {
        match self {
            Form::Narrow(numbers) => narrow_slot(numbers, i),
            Form::NarrowWithEmpties(numbers, marks) => marked_narrow_slot(numbers, marks, i),
            Form::Wide(numbers) => wide_slot(numbers, i),
            Form::WideWithEmpties(numbers, marks) => marked_wide_slot(numbers, marks, i),
            Form::Symbolic(v, n) => control_slot(*v, *n, i),
        }
    }

    /// The first `n` slots, kept in the same way.
    pub fn front(&self, alloc: Global, n: u32) -> Result<Form, NoMemory>
        requires whole { IsWhole self.now }
        requires within { n ≤ length (value_of self.now).slots }
        ensures { IfOk result (IsFrontOf n self.now) }
    {
        match self {
            Form::Narrow(numbers) => Ok(Form::Narrow(front_narrow(alloc, numbers, n)?)),
            Form::NarrowWithEmpties(numbers, marks) => Ok(Form::NarrowWithEmpties(
                front_narrow(alloc, numbers, n)?,
                front_marks(alloc, marks, n)?,
            )),
            Form::Wide(numbers) => Ok(Form::Wide(front_wide(alloc, numbers, n)?)),
            Form::WideWithEmpties(numbers, marks) => Ok(Form::WideWithEmpties(
                front_wide(alloc, numbers, n)?,
                front_marks(alloc, marks, n)?,
            )),
            Form::Symbolic(v, _) => Ok(Form::Symbolic(*v, n)),
        }
    }

    /// The same slots, kept in the same way.
    pub fn copied(&self, alloc: Global) -> Result<Form, NoMemory>
        requires { IsWhole self.now }
        ensures { IfOk result (IsCopyOf self.now) }
    {
        match self {
            Form::Narrow(numbers) => Ok(Form::Narrow(copied_narrow(alloc, numbers)?)),
            Form::NarrowWithEmpties(numbers, marks) => Ok(Form::NarrowWithEmpties(
                copied_narrow(alloc, numbers)?,
                copied_marks(alloc, marks)?,
            )),
            Form::Wide(numbers) => Ok(Form::Wide(copied_wide(alloc, numbers)?)),
            Form::WideWithEmpties(numbers, marks) => Ok(Form::WideWithEmpties(
                copied_wide(alloc, numbers)?,
                copied_marks(alloc, marks)?,
            )),
            Form::Symbolic(v, n) => Ok(Form::Symbolic(*v, *n)),
        }
    }
}

/// The slot of a number.
#[inline]
fn narrow_slot(numbers: &Vec<i64>, i: u32) -> Slot
    requires { i < length numbers.now.items }
    ensures slot { slice_get (some_slots numbers.now.items) i ≡ Some result }
    ensures fits { MayKeep false result }
{
    Some(i128::from(numbers[i as usize]))
}

/// The slot of a number with its mark.
#[inline]
fn marked_narrow_slot(numbers: &Vec<i64>, marks: &Vec<bool>, i: u32) -> Slot
    requires lengths { length marks.now.items ≡ length numbers.now.items }
    requires within { i < length numbers.now.items }
    ensures slot { slice_get (marked_slots numbers.now.items marks.now.items) i ≡ Some result }
    ensures fits { MayKeep false result }
{
    marked(i128::from(numbers[i as usize]), marks[i as usize])
}

/// The slot of a number.
fn wide_slot(numbers: &Vec<i128>, i: u32) -> Slot
    requires { i < length numbers.now.items }
    ensures { slice_get (some_slots numbers.now.items) i ≡ Some result }
{
    Some(numbers[i as usize])
}

/// The slot of a number with its mark.
fn marked_wide_slot(numbers: &Vec<i128>, marks: &Vec<bool>, i: u32) -> Slot
    requires lengths { length marks.now.items ≡ length numbers.now.items }
    requires within { i < length numbers.now.items }
    ensures { slice_get (marked_slots numbers.now.items marks.now.items) i ≡ Some result }
{
    marked(numbers[i as usize], marks[i as usize])
}

/// The slot of a control vector's value.
fn control_slot(v: ControlVector, n: u32, i: u32) -> Slot
    requires { i < n }
    ensures { slice_get (some_slots (control_list v n)) i ≡ Some result }
{
    Some(v.at(i))
}

/// A number with its mark as a slot.
#[inline]
fn marked(number: i128, mark: bool) -> Slot
    ensures { result ≡ marked_slot number mark }
{
    if mark { Some(number) } else { None }
}

/// The same numbers again.
fn copied_narrow(alloc: Global, numbers: &Vec<i64>) -> Result<Vec<i64>, NoMemory>
    ensures { IfOk result (λ copy. copy.items ≡ numbers.now.items) }
{
    Vec::from_slice(alloc, numbers.as_slice())
}

/// The same numbers again.
fn copied_wide(alloc: Global, numbers: &Vec<i128>) -> Result<Vec<i128>, NoMemory>
    ensures { IfOk result (λ copy. copy.items ≡ numbers.now.items) }
{
    Vec::from_slice(alloc, numbers.as_slice())
}

/// The same marks again.
fn copied_marks(alloc: Global, marks: &Vec<bool>) -> Result<Vec<bool>, NoMemory>
    ensures { IfOk result (λ copy. copy.items ≡ marks.now.items) }
{
    Vec::from_slice(alloc, marks.as_slice())
}

/// The first numbers.
fn front_narrow(alloc: Global, numbers: &Vec<i64>, n: u32) -> Result<Vec<i64>, NoMemory>
    requires { n ≤ length numbers.now.items }
    ensures { IfOk result (λ front. front.items ≡ take n numbers.now.items) }
{
    Vec::from_slice(alloc, &numbers.as_slice()[..n as usize])
}

/// The first numbers.
fn front_wide(alloc: Global, numbers: &Vec<i128>, n: u32) -> Result<Vec<i128>, NoMemory>
    requires { n ≤ length numbers.now.items }
    ensures { IfOk result (λ front. front.items ≡ take n numbers.now.items) }
{
    Vec::from_slice(alloc, &numbers.as_slice()[..n as usize])
}

/// The first marks.
fn front_marks(alloc: Global, marks: &Vec<bool>, n: u32) -> Result<Vec<bool>, NoMemory>
    requires { n ≤ length marks.now.items }
    ensures { IfOk result (λ front. front.items ≡ take n marks.now.items) }
{
    Vec::from_slice(alloc, &marks.as_slice()[..n as usize])
}
