//! The place of the last reader of each name.

ghost use Rattle.std.specs.Prelude.{◌≡◌, ◌||◌, is_some, IfOk};
ghost use Rattle.programs.specs.Indexes.{places_of};
ghost use Rattle.programs.specs.Mentions.{is_persist};
ghost use Rattle.last_readers.specs.Names.{names_in, one_name};
ghost use Rattle.last_readers.specs.Readers.{AreLast, Notes};

use crate::NoMemory;
use crate::names::{Mentions, mentions_of};
use io_edge::Name;
use programs::Statement;
use programs::index::Index;
use std::alloc::Global;

/// The place of the last reached statement that mentions a name, by the name. Contracts see it by
/// `is_read`: whether some reached statement from a place on mentions a name.
#[derive(Drop)]
pub struct LastReaders {
    places: Index,
}

impl LastReaders {
    ghost use Rattle.std.specs.Prelude.{◌≡◌};
    ghost use Rattle.last_readers.specs.Readers.{is_read};

    /// Whether the statement at place `i`, or a reached one behind it, mentions the name.
    pub fn reads(&self, name: &Name, i: usize) -> bool
        ensures { result ≡ is_read self.now i name.now }
    {
        match self.places.place(name) {
            Some(last) => last >= i,
            None => false,
        }
    }
}

/// The last readers of the names of a program.
pub fn last_readers(alloc: Global, statements: &[Statement]) -> Result<LastReaders, NoMemory>
    ensures { IfOk result (λ r. AreLast r statements.now) }
{
    let mut places = Index::new(alloc);
    let mut i = statements.len();
    while i > 0 {
        i -= 1;
        if is_wanted(&places, &statements[i]) {
            places = note_all(alloc, places, mentions_of(&statements[i].op), i)?;
        }
    }
    Ok(LastReaders { places })
}

/// Whether a statement names a result, or a reached one behind it mentions its vector.
fn is_wanted(places: &Index, s: &Statement) -> bool
    ensures { result ≡ (is_persist s.now.op || is_some (places_of places.now s.now.name)) }
{
    s.op.persists() || places.place(&s.name).is_some()
}

/// Notes a reader of some names where no later one was noted.
fn note_all(alloc: Global, places: Index, names: Mentions, i: usize) -> Result<Index, NoMemory>
    ensures { IfOk result (λ now. Notes (places_of places) (names_in names.entry) i (places_of now)) }
{
    let first = note_one(alloc, places, names.first, i)?;
    let second = note_one(alloc, first, names.second, i)?;
    let now = note_one(alloc, second, names.third, i)?;
    Ok(now)
}

/// Notes a reader of a name where no later one was noted.
fn note_one(alloc: Global, places: Index, name: Option<&Name>, i: usize) -> Result<Index, NoMemory>
    ensures { IfOk result (λ now. Notes (places_of places) (one_name name.entry) i (places_of now)) }
{
    let Some(a) = name else { return Ok(places) };
    if places.place(a).is_some() {
        return Ok(places);
    }
    let now = places.with(alloc, a, i)?;
    Ok(now)
}
