//! What is known of a program behind some of its statements.

ghost use Rattle.std.specs.Prelude.{length};
ghost use Rattle.programs.specs.Indexes.{AreWithin, places_of};

use crate::NoMemory;
use crate::index::Index;
use crate::outline::Outline;
use io_edge::Name;
use std::alloc::Global;

/// The outline of each statement so far, and the names of the vectors and of the results. Contracts
/// see it by `known_in`.
#[derive(Drop)]
pub struct Known {
    outlines: Vec<Outline>,
    vectors: Index,
    results: Index,
    ghost within: { AreWithin (length outlines.items) (places_of vectors) },
}

impl Known {
    ghost use Rattle.std.specs.Prelude.{◌≡◌, ◌+◌, ◌-◌, ◌^◌, ◌<◌, IfOk};
    ghost use Rattle.std.specs.Option.{option_copied};
    ghost use Rattle.programs.specs.Check.{at_start, with_result, with_vector};
    ghost use Rattle.programs.specs.Parts.{known_in};

    /// What is known at the start.
    pub fn nothing(alloc: Global) -> Known
        ensures { known_in result ≡ at_start }
    {
        Known {
            outlines: Vec::new(alloc),
            vectors: Index::new(alloc),
            results: Index::new(alloc),
        }
    }

    /// The number of the next statement, from 1 on.
    pub fn next_number(&self) -> u32
        requires { length (known_in self.now).shape < 2 ^ 32 - 1 }
        ensures { result ≡ length (known_in self.now).shape + 1 }
    {
        self.outlines.len() as u32 + 1
    }

    /// The outline of the vector of a name.
    pub fn vector(&self, name: &Name) -> Option<&Outline>
        ensures { option_copied result ≡ (known_in self.now).vectors name.now }
    {
        match self.vectors.place(name) {
            Some(place) => Some(&self.outlines[place]),
            None => None,
        }
    }

    /// Whether a result has that name.
    pub fn has_result(&self, name: &Name) -> bool
        ensures { result ≡ (known_in self.now).results name.now }
    {
        self.results.place(name).is_some()
    }

    /// Behind one more statement that names a result.
    pub fn with_result(self, alloc: Global, name: &Name) -> Result<Known, NoMemory>
        ensures { IfOk result (λ k. known_in k ≡ with_result (known_in self) name.now) }
    {
        let Known {
            mut outlines,
            vectors,
            results,
        } = self;
        outlines.push(Outline::none(alloc))?;
        Ok(Known {
            outlines,
            vectors,
            results: results.with(alloc, name, 0)?,
        })
    }

    /// Behind one more statement that makes a vector.
    pub fn with_vector(
        self,
        alloc: Global,
        name: &Name,
        outline: Outline,
    ) -> Result<Known, NoMemory>
        ensures { IfOk result (λ k. known_in k ≡ with_vector (known_in self) name.now outline) }
    {
        let Known {
            mut outlines,
            vectors,
            results,
        } = self;
        let place = outlines.len();
        outlines.push(outline)?;
        Ok(Known {
            outlines,
            vectors: vectors.with(alloc, name, place)?,
            results,
        })
    }

    /// The outlines in order.
    pub fn into_outlines(self) -> Vec<Outline>
        ensures { result.items ≡ (known_in self).shape }
    {
        self.outlines
    }
}
