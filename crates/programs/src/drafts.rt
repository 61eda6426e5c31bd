//! Drafts: what the vector of a statement would be, before it is known whether its paths clash.

ghost use Rattle.std.specs.Prelude.{◌≡◌, ◌∷◌, [], false, All, IfOk};
ghost use Rattle.key_paths.specs.Paths.{IsPath};
ghost use Rattle.key_paths.specs.Substructures.{is_before};
ghost use Rattle.programs.specs.Faults.{path_clash, too_deep};
ghost use Rattle.programs.specs.MadeOutlines.{zipped_outline};
ghost use Rattle.programs.specs.Merges.{merged};
ghost use Rattle.programs.specs.Moves.{upserted};
ghost use Rattle.programs.specs.Orders.{Rises};
ghost use Rattle.programs.specs.Outlines.{no_outline, outline_of, outlined};
ghost use Rattle.programs.specs.Vectors.{seen};

use crate::NoMemory;
use crate::ordered::{copied_paths, has_nested, has_root, merged_paths, other_paths};
use crate::outline::Outline;
use key_paths::Path;
use std::alloc::Global;
use std::marker::Model;
use struct_vectors::StructVector;

/// A length and paths, of which none comes before its former neighbour.
#[derive(Drop)]
pub(crate) struct Draft {
    len: u64,
    paths: Vec<Path>,
}

impl Model for Draft {
    ghost use Rattle.std.specs.Prelude.{All};
    ghost use Rattle.key_paths.specs.Paths.{IsPath};
    ghost use Rattle.programs.specs.Outlines as spec;
    ghost use Rattle.programs.specs.Orders.{Rises};

    ghost Value = { spec.Outline };

    ghost view = { λ o. record { len = o.len; paths = o.paths.items } };

    ghost invariant = { λ o. Rises o.paths.items × All IsPath o.paths.items };
}

impl Draft {
    /// No places and no paths.
    pub fn none(alloc: Global) -> Draft
        ensures { result ≡ no_outline }
    {
        Draft {
            len: 0,
            paths: Vec::new(alloc),
        }
    }

    /// These paths.
    pub fn of_paths(len: u64, paths: Vec<Path>) -> Draft
        requires rises { Rises paths.items }
        requires paths { All IsPath paths.items }
        ensures { result ≡ outlined len paths.items }
    {
        Draft { len, paths }
    }

    /// One path.
    pub fn of_path(alloc: Global, len: u64, path: &Path) -> Result<Draft, NoMemory>
        ensures { IfOk result (λ o. o ≡ outlined len (path.now ∷ [])) }
    {
        let mut paths = Vec::with_capacity(alloc, 1)?;
        paths.push(path.copied(alloc)?)?;
        Ok(Draft { len, paths })
    }

    /// Two paths in order.
    pub fn of_two(alloc: Global, len: u64, p: &Path, q: &Path) -> Result<Draft, NoMemory>
        ensures { IfOk result (λ o. o ≡ outlined len (merged is_before (p.now ∷ []) (q.now ∷ []))) }
    {
        let first = Draft::of_path(alloc, len, p)?;
        let second = Draft::of_path(alloc, len, q)?;
        let paths = merged_paths(alloc, first.paths.as_slice(), second.paths.as_slice())?;
        Ok(Draft { len, paths })
    }

    /// The paths of a vector with its slots.
    pub fn of_vector(alloc: Global, v: &StructVector) -> Result<Draft, NoMemory>
        ensures { IfOk result (λ o. o ≡ outline_of (seen v.now)) }
    {
        let paths = copied_paths(alloc, v.paths())?;
        Ok(Draft {
            len: u64::from(v.len()),
            paths,
        })
    }

    /// The paths of another outline.
    pub fn of_outline(alloc: Global, len: u64, a: &Outline) -> Result<Draft, NoMemory>
        ensures { IfOk result (λ o. o ≡ outlined len a.now.paths) }
    {
        let paths = copied_paths(alloc, a.paths())?;
        Ok(Draft { len, paths })
    }

    /// The paths of two outlines, at the shorter length.
    pub fn zipped(alloc: Global, a: &Outline, b: &Outline) -> Result<Draft, NoMemory>
        ensures { IfOk result (λ o. o ≡ zipped_outline a.now b.now) }
    {
        let paths = merged_paths(alloc, a.paths(), b.paths())?;
        Ok(Draft {
            len: a.len().min(b.len()),
            paths,
        })
    }

    /// The paths of an outline with one more, which takes the place of those at or below it.
    pub fn upserted(alloc: Global, a: &Outline, p: &Path) -> Result<Draft, NoMemory>
        ensures { IfOk result (λ o. o ≡ outlined a.now.len (upserted p.now a.now.paths)) }
    {
        let first = Draft::of_path(alloc, 0, p)?;
        let others = other_paths(alloc, a.paths(), p)?;
        let paths = merged_paths(alloc, first.paths.as_slice(), others.as_slice())?;
        Ok(Draft {
            len: a.len(),
            paths,
        })
    }

    /// The length and the paths.
    pub fn into_parts(self) -> (u64, Vec<Path>)
        ensures parts { outlined result.0 result.1.items ≡ self }
        ensures rises { Rises result.1.items }
        ensures paths { All IsPath result.1.items }
    {
        (self.len, self.paths)
    }

    /// Whether an attribute stands at the root, or two are equal or nested. No path is too deep.
    pub fn clashes(&self) -> bool
        ensures clash { result ≡ path_clash self.now }
        ensures shallow { too_deep self.now ≡ false }
    {
        has_root(self.paths.as_slice()) || has_nested(self.paths.as_slice())
    }
}
