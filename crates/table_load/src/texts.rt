//! The distinct texts of a table.

ghost use Rattle.std.specs.Prelude.{◌≡◌, ℕ, [], pos, Some, slice_get, IfOk, OnOk, OnErr};
ghost use Rattle.table_load.specs.HeldColumns.{note};

use indexmap::IndexSet;
use io_edge::{Name, NoMemory};
use std::alloc::{AllocError, Global};
use std::marker::Model;

/// Texts, each once, in the order in which they came. Contracts see the list of them.
#[derive(Drop)]
pub struct Texts {
    set: IndexSet<String>,
}

impl Model for Texts {
    ghost use Rattle.std.specs.Prelude.{List, ℕ, map, string_bytes};

    ghost Value = { List (List ℕ) };

    ghost view = { λ t. map (λ s. string_bytes s) t.set.keys };
}

impl Texts {
    /// No text.
    pub fn new(alloc: Global) -> Texts
        ensures { result ≡ [] }
    {
        Texts {
            set: IndexSet::new(alloc),
        }
    }

    /// The place of a text, which comes last where it is not there yet. A text that is there takes no memory.
    pub fn note(&mut self, alloc: Global, text: &str) -> Result<i64, NoMemory>
        ensures place { IfOk result (λ z. (n : ℕ) × (z ≡ pos n) × (slice_get self.new n ≡ Some text.now)) }
        ensures noted { OnOk result (self.new ≡ note self.old text.now) }
        ensures kept { OnErr result (self.new ≡ self.old) }
    {
        let count = self.set.len();
        if let Some(place) = self.set.get_index_of(text) {
            return Ok(place as i64);
        }
        let owned = String::from_str(alloc, text)?;
        if self.set.insert(owned).is_err() {
            return Err(AllocError);
        }
        Ok(count as i64)
    }

    /// The texts as names, without copies.
    pub fn into_names(self, alloc: Global) -> Result<Vec<Name>, NoMemory>
        ensures { IfOk result (λ v. v.items ≡ self) }
    {
        let mut names = Vec::with_capacity(alloc, self.set.len())?;
        for text in self.set {
            names.push(Name::from_string(text))?;
        }
        Ok(names)
    }
}
