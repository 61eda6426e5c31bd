//! Places by name, found by a hash map.

ghost use Rattle.std.specs.Prelude.{◌≡◌, IfOk};
ghost use Rattle.programs.specs.Indexes.{no_places, noted, places_of};

use crate::NoMemory;
use indexmap::IndexMap;
use io_edge::Name;
use std::alloc::Global;

/// A place for each of some names. Contracts see it by `places_of`, a function from a name to its
/// place.
#[derive(Drop)]
pub struct Index {
    places: IndexMap<String, usize>,
}

impl Index {
    /// No names.
    pub fn new(alloc: Global) -> Index
        ensures { places_of result ≡ no_places }
    {
        Index {
            places: IndexMap::new(alloc),
        }
    }

    /// The place of a name.
    pub fn place(&self, name: &Name) -> Option<usize>
        ensures { result ≡ places_of self.now name.now }
    {
        self.places.get(name.text()).copied()
    }

    /// The names with one more, or with another place for it.
    pub fn with(self, alloc: Global, name: &Name, place: usize) -> Result<Index, NoMemory>
        ensures { IfOk result (λ x. places_of x ≡ noted (places_of self) name.now place) }
    {
        let key = String::from_str(alloc, name.text())?;
        let mut places = self.places;
        places.insert(key, place)?;
        Ok(Index { places })
    }
}
