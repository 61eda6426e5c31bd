//! Outlines: a vector's length and paths, without its slots.

ghost use Rattle.std.specs.Prelude.{◌≡◌, false, All};
ghost use Rattle.key_paths.specs.Paths.{IsPath};
ghost use Rattle.programs.specs.Faults.{path_clash};
ghost use Rattle.programs.specs.Orders.{Rises};
ghost use Rattle.programs.specs.Outlines.{no_outline};

use crate::drafts::Draft;
use key_paths::Path;
use std::alloc::Global;
use std::marker::Model;

/// A vector's length and its paths, which ascend; none is the root, another or below another.
#[derive(Drop)]
pub struct Outline {
    len: u64,
    paths: Vec<Path>,
}

impl Model for Outline {
    ghost use Rattle.programs.specs.Faults.{IsClear};
    ghost use Rattle.programs.specs.Outlines as spec;

    ghost Value = { spec.Outline };

    ghost view = { λ o. record { len = o.len; paths = o.paths.items } };

    ghost invariant = { λ o. IsClear (record { len = o.len; paths = o.paths.items }) };
}

impl Outline {
    /// No places and no paths, as a Persist makes.
    pub(crate) fn none(alloc: Global) -> Outline
        ensures { result ≡ no_outline }
    {
        Outline {
            len: 0,
            paths: Vec::new(alloc),
        }
    }

    /// The outline that was drafted.
    pub(crate) fn of(draft: Draft) -> Outline
        requires { path_clash draft ≡ false }
        ensures { result ≡ draft }
    {
        let (len, paths) = draft.into_parts();
        Outline { len, paths }
    }

    /// How many places there are. A number of places past 2^64 - 1 is told as that number.
    pub fn len(&self) -> u64
        ensures { result ≡ self.now.len }
    {
        self.len
    }

    /// The paths, ascending.
    pub fn paths(&self) -> &[Path]
        ensures value { result.now ≡ self.now.paths }
        ensures rises { Rises self.now.paths }
        ensures paths { All IsPath self.now.paths }
        ensures clear { path_clash self.now ≡ false }
    {
        self.paths.as_slice()
    }
}
