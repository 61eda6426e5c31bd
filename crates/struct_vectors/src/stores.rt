//! Stores: the tables that a program loads, as vectors by name.
ghost use Rattle.std.specs.Prelude.{◌≡◌};
ghost use Rattle.std.specs.Option.{option_copied};
ghost use Rattle.std.specs.Map.{lookup};
ghost use Rattle.std.specs.Str.{bytes_eq};
ghost use Rattle.struct_vectors.specs.Stores.{HaveDistinctNames};

use crate::vectors::StructVector;
use io_edge::Name;
use std::marker::Model;

/// Vectors, each with a name of its own.
#[derive(Drop)]
pub struct Store {
    vectors: Vec<(Name, StructVector)>,
}

impl Model for Store {
    ghost use Rattle.std.specs.Prelude.{List, ℕ};
    ghost use Rattle.struct_vectors.specs.Vectors.{VectorValue};
    ghost use Rattle.struct_vectors.specs.Stores.{HaveDistinctNames};

    ghost Value = { List (List ℕ × VectorValue) };

    ghost view = { λ s. s.vectors.items };

    ghost invariant = { λ s. HaveDistinctNames s.vectors.items };
}

impl Store {
    /// The store of these vectors.
    pub fn new(vectors: Vec<(Name, StructVector)>) -> Store
        requires { HaveDistinctNames vectors.items }
        ensures { result ≡ vectors.items }
    {
        Store { vectors }
    }

    /// The vector of that name, or `None` where there is none.
    pub fn table(&self, name: &Name) -> Option<&StructVector>
        ensures table { option_copied result ≡ lookup (bytes_eq name.now) self.now }
        ensures distinct { HaveDistinctNames self.now }
    {
        for entry in &self.vectors {
            if name.text() == entry.0.text() {
                return Some(&entry.1);
            }
        }
        None
    }
}
