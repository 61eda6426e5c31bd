//! The vectors that a run has made, by name.

use crate::NoMemory;
use held_vectors::HeldVector;
use io_edge::Name;
use std::alloc::Global;
use std::collections::HashMap;

/// Vectors by name. Contracts see it by `env_in`, a function from a name to the slots of its vector.
#[derive(Drop)]
pub struct Made {
    vectors: HashMap<String, HeldVector>,
}

impl Made {
    ghost use Rattle.std.specs.Prelude.{◌≡◌, OnOk};
    ghost use Rattle.std.specs.Option.{option_copied, option_map};
    ghost use Rattle.voodoo_ops.specs.Envs.{env_in, without};
    ghost use Rattle.programs.specs.Vectors.{nothing, put, seen};

    /// No vectors.
    pub fn nothing(alloc: Global) -> Made
        ensures { env_in result ≡ nothing }
    {
        Made {
            vectors: HashMap::new(alloc),
        }
    }

    /// The vector of a name.
    pub fn vector(&self, name: &Name) -> Option<&HeldVector>
        ensures { option_map seen (option_copied result) ≡ env_in self.now name.now }
    {
        self.vectors.get(name.text())
    }

    /// Adds a vector, which takes the place of an earlier one of its name.
    pub fn put(&mut self, alloc: Global, name: &Name, v: HeldVector) -> Result<(), NoMemory>
        ensures { OnOk result (env_in self.new ≡ put (env_in self.old) name.now (seen v)) }
    {
        let key = String::from_str(alloc, name.text())?;
        self.vectors.insert(key, v)?;
        Ok(())
    }

    /// Takes the vector of a name out.
    pub fn take(&mut self, name: &Name) -> Option<HeldVector>
        ensures vector { option_map seen result ≡ env_in self.old name.now }
        ensures left { env_in self.new ≡ without (env_in self.old) name.now }
    {
        self.vectors.remove(name.text())
    }
}
