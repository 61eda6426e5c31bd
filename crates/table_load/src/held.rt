//! A column as it is held while its table is loaded.

ghost use Rattle.std.specs.Prelude.{◌≡◌, ◌≤◌, ◌^◌, ◌++◌, ℕ, true, false, [], ◌∷◌, length, map, replicate, IfOk, OnOk};
ghost use Rattle.std.specs.List.{list_all};
ghost use Rattle.table_load.specs.Databases.{in_64_bits};
ghost use Rattle.table_load.specs.Vectors.{cell_slot};
ghost use Rattle.table_load.specs.Vectors as spec;

use io_edge::NoMemory;
use std::alloc::Global;
use std::marker::Model;
use struct_vectors::Column;

/// The cells of a column, one row after the other. Contracts see them as slots, of which a null is an empty one.
///
/// Each number takes 8 bytes. Marks say which cells are there, up to the last null: a column without a null has none.
#[derive(Drop)]
pub struct HeldColumn {
    numbers: Vec<i64>,
    marks: Vec<bool>,
}

impl Model for HeldColumn {
    ghost use Rattle.std.specs.Prelude.{◌≤◌, List, length};
    ghost use Rattle.control_vectors.specs.Slots.{Slot};
    ghost use Rattle.table_load.specs.HeldColumns.{slots_of};

    ghost Value = { List Slot };

    ghost view = { λ c. slots_of c.numbers.items c.marks.items };

    ghost invariant = { λ c. length c.marks.items ≤ length c.numbers.items };
}

impl HeldColumn {
    /// A column without a cell.
    pub fn new(alloc: Global) -> HeldColumn
        ensures { result ≡ [] }
    {
        HeldColumn {
            numbers: Vec::new(alloc),
            marks: Vec::new(alloc),
        }
    }

    /// Adds a cell at the end: a number, or a null.
    pub fn push(&mut self, cell: Option<i64>) -> Result<(), NoMemory>
        ensures { OnOk result (self.new ≡ self.old ++ cell ∷ []) }
    {
        match cell {
            Some(number) => {
                self.numbers.push(number)?;
                Ok(())
            }
            None => self.push_null(),
        }
    }

    fn push_null(&mut self) -> Result<(), NoMemory>
        ensures { OnOk result (self.new ≡ self.old ++ None ∷ []) }
    {
        mark_up_to(&mut self.marks, self.numbers.len())?;
        self.numbers.push(0)?;
        self.marks.push(false)?;
        Ok(())
    }

    /// The column with the codes of the texts that its cells name.
    pub fn recoded(self, alloc: Global, codes: &[i64]) -> Result<HeldColumn, NoMemory>
        ensures { IfOk result (λ c. c ≡ map (cell_slot codes.now true) self) }
    {
        let HeldColumn { numbers, marks } = self;
        Ok(HeldColumn {
            numbers: recoded(alloc, numbers.as_slice(), codes)?,
            marks,
        })
    }

    /// The column of a vector, without empties where no cell is null.
    pub fn into_column(self) -> Result<Column, NoMemory>
        requires { length self ≤ 2 ^ 22 }
        ensures { IfOk result (λ c. c ≡ in_64_bits self) }
    {
        let HeldColumn { numbers, marks } = self;
        if are_set(marks.as_slice()) {
            return Ok(Column::narrow(numbers));
        }
        let mut marks = marks;
        mark_up_to(&mut marks, numbers.len())?;
        Ok(Column::narrow_with_empties(numbers, marks))
    }
}

/// Sets marks for all that is not marked yet, up to a number of them.
fn mark_up_to(marks: &mut Vec<bool>, count: usize) -> Result<(), NoMemory>
    requires { length marks.old.items ≤ count }
    ensures grown { (k : ℕ) × (marks.new.items ≡ marks.old.items ++ replicate k true) }
    ensures within { length marks.new.items ≤ count }
    ensures all { OnOk result (length marks.new.items ≡ count) }
{
    while marks.len() < count {
        marks.push(true)?;
    }
    Ok(())
}

/// Whether all marks are set.
fn are_set(marks: &[bool]) -> bool
    ensures { result ≡ list_all (λ mark. mark) marks.now }
{
    marks.iter().all(|mark| *mark)
}

/// The codes of the texts of these places.
fn recoded(alloc: Global, places: &[i64], codes: &[i64]) -> Result<Vec<i64>, NoMemory>
    ensures { IfOk result (λ v. v.items ≡ map (spec.code_at codes.now) places.now) }
{
    let mut numbers = Vec::with_capacity(alloc, places.len())?;
    for place in places {
        numbers.push(code_at(codes, *place))?;
    }
    Ok(numbers)
}

/// The code of the text of a place.
fn code_at(codes: &[i64], place: i64) -> i64
    ensures { result ≡ spec.code_at codes.now place }
{
    match usize::try_from(place) {
        Ok(i) => codes.get(i).copied().unwrap_or(0),
        Err(_) => 0,
    }
}
