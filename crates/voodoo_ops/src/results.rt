//! The named results of a program.

ghost use Rattle.std.specs.Prelude.{◌≡◌};

use io_edge::Name;
use std::marker::Model;
use struct_vectors::StructVector;

/// The named results of a program, in the order in which it names them.
#[derive(Drop)]
pub struct Results {
    named: Vec<(Name, StructVector)>,
}

impl Model for Results {
    ghost use Rattle.std.specs.Prelude.{List, ℕ};
    ghost use Rattle.struct_vectors.specs.Vectors.{VectorValue};

    ghost Value = { List (List ℕ × VectorValue) };

    ghost view = { λ r. r.named.items };
}

impl Results {
    pub(crate) fn of(named: Vec<(Name, StructVector)>) -> Results
        ensures { result ≡ named.items }
    {
        Results { named }
    }

    /// The results by name, in order.
    pub fn named(&self) -> &[(Name, StructVector)]
        ensures { result.now ≡ self.now }
    {
        self.named.as_slice()
    }
}
