//! A vector that can be taken apart.

ghost use Rattle.std.specs.Prelude.{◌≡◌, ◌++◌, ◌∷◌, [], ◌<◌, length, IfOk, OnOk};
ghost use Rattle.struct_vectors.specs.Vectors.{columns_of, paths_of};

use crate::NoMemory;
use key_paths::Path;
use std::alloc::Global;
use std::marker::Model;
use struct_vectors::{Column, StructVector};

/// Columns of one length, each named by a path, as those of a `StructVector`.
#[derive(Drop)]
pub struct HeldVector {
    count: u32,
    attributes: Vec<(Path, Column)>,
}

impl Model for HeldVector {
    ghost use Rattle.struct_vectors.specs.Vectors.{VectorValue, vector_of, IsShaped};

    ghost Value = { VectorValue };

    ghost view = { λ v. vector_of v.count v.attributes.items };

    ghost invariant = { λ v. IsShaped (vector_of v.count v.attributes.items) };
}

impl HeldVector {
    ghost use Rattle.std.specs.Prelude.{◌≡◌, ◌∷◌, [], length, IfOk};
    ghost use Rattle.std.specs.Option.{option_copied};
    ghost use Rattle.std.specs.Map.{lookup};
    ghost use Rattle.std.specs.Str.{bytes_eq};
    ghost use Rattle.struct_vectors.specs.Vectors.{IsBelowRoot, IsShaped, vector_of};

    /// The vector of `n` slots with these attributes, which are those of a vector in their order.
    pub fn of_ordered(n: u32, attributes: Vec<(Path, Column)>) -> HeldVector
        requires { IsShaped (vector_of n attributes.items) }
        ensures { result ≡ vector_of n attributes.items }
    {
        HeldVector {
            count: n,
            attributes,
        }
    }

    /// The vector of one attribute, as long as its column.
    pub fn of_column(alloc: Global, path: Path, column: Column) -> Result<HeldVector, NoMemory>
        requires named { IsBelowRoot path }
        ensures { IfOk result (λ v. v ≡ vector_of (length column.slots) ((path, column) ∷ [])) }
    {
        let _text = path.text();
        let count = column.len();
        let mut attributes = Vec::with_capacity(alloc, 1)?;
        attributes.push((path, column))?;
        Ok(HeldVector { count, attributes })
    }

    /// A copy of a vector.
    pub fn of_table(alloc: Global, v: &StructVector) -> Result<HeldVector, NoMemory>
        ensures { IfOk result (λ held. held ≡ v.now) }
    {
        let count = v.len();
        let attributes = copied_attributes(alloc, v)?;
        Ok(HeldVector { count, attributes })
    }

    /// How many slots each attribute has.
    pub fn len(&self) -> u32
        ensures len { result ≡ self.now.length }
        ensures shaped { IsShaped self.now }
    {
        self.count
    }

    /// The attributes, ascending by path.
    pub fn attributes(&self) -> &[(Path, Column)]
        ensures attributes { result.now ≡ self.now.attributes }
        ensures shaped { IsShaped self.now }
    {
        self.attributes.as_slice()
    }

    /// The attribute's column, or `None` where no attribute has that path.
    pub fn column(&self, p: &Path) -> Option<&Column>
        ensures column { option_copied result ≡ lookup (bytes_eq p.now) self.now.attributes }
        ensures shaped { IsShaped self.now }
    {
        for attribute in &self.attributes {
            if p.text() == attribute.0.text() {
                return Some(&attribute.1);
            }
        }
        None
    }

    /// Another vector with the same attributes, each kept in the same way.
    pub fn copied(&self, alloc: Global) -> Result<HeldVector, NoMemory>
        ensures { IfOk result (λ v. v ≡ self.now) }
    {
        let mut attributes = Vec::with_capacity(alloc, self.attributes.len())?;
        for attribute in &self.attributes {
            let path = attribute.0.copied(alloc)?;
            attributes.push((path, attribute.1.copied(alloc)?))?;
        }
        Ok(HeldVector {
            count: self.count,
            attributes,
        })
    }

    /// Its attributes, ascending by path.
    pub fn into_attributes(self) -> Vec<(Path, Column)>
        ensures attributes { result.items ≡ self.attributes }
        ensures shaped { IsShaped self }
    {
        self.attributes
    }

    /// The same vector, as a table or a result.
    pub fn into_vector(self, alloc: Global) -> Result<StructVector, NoMemory>
        ensures { IfOk result (λ v. v ≡ self) }
    {
        StructVector::of_ordered(alloc, self.count, self.attributes)
    }
}

/// Copies of the attributes of a vector, each kept in the same way.
fn copied_attributes(alloc: Global, v: &StructVector) -> Result<Vec<(Path, Column)>, NoMemory>
    ensures { IfOk result (λ copies. copies.items ≡ v.now.attributes) }
{
    let mut copies = Vec::with_capacity(alloc, v.paths().len())?;
    for k in 0..v.paths().len() {
        let path = v.paths()[k].copied(alloc)?;
        copies.push((path, v.columns()[k].copied(alloc)?))?;
    }
    Ok(copies)
}
