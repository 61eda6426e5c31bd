//! Shapes: what a program's check gives.

ghost use Rattle.std.specs.Prelude.{◌≡◌, ◌≤◌, length, None};
ghost use Rattle.key_paths.specs.Substructures.{IsAscending};
ghost use Rattle.programs.specs.Check.{limit_of, outline_at};

use crate::outline::Outline;
use key_paths::Path;
use std::marker::Model;

/// The greatest length of a vector that a run makes.
const MOST_PLACES: u64 = 1 << 22;

/// The outline of each statement's vector, in order. Statements count from 1.
#[derive(Drop)]
pub struct Shape {
    outlines: Vec<Outline>,
}

impl Model for Shape {
    ghost use Rattle.std.specs.Prelude.{◌≤◌, List, length};
    ghost use Rattle.programs.specs.Outlines as spec;

    ghost Value = { List spec.Outline };

    ghost view = { λ s. s.outlines.items };

    ghost invariant = { λ s. length s.outlines.items ≤ 65536 };
}

impl Shape {
    /// The shape of these outlines.
    pub(crate) fn of(outlines: Vec<Outline>) -> Shape
        requires { length outlines.items ≤ 65536 }
        ensures { result ≡ outlines.items }
    {
        Shape { outlines }
    }

    /// How many statements there are.
    pub fn count(&self) -> u32
        ensures { result ≡ length self.now }
    {
        self.outlines.len() as u32
    }

    /// The first statement whose vector has more than 2^22 places, and its length; `None` where there
    /// is none. A program with a limit is not run.
    pub fn limit(&self) -> Option<(u32, u64)>
        ensures { result ≡ limit_of self.now }
    {
        for (i, outline) in self.outlines.iter().enumerate() {
            if MOST_PLACES < outline.len() {
                return Some((i as u32 + 1, outline.len()));
            }
        }
        None
    }

    /// How many places the statement's vector has, 0 for a Persist.
    pub fn len_of(&self, statement: u32) -> u32
        requires within { limit_of self.now ≡ None }
        requires from { 1 ≤ statement }
        requires to { statement ≤ length self.now }
        ensures { result ≡ (outline_at self.now statement).len }
    {
        self.outlines[statement as usize - 1].len() as u32
    }

    /// The paths of the statement's vector, ascending, none for a Persist.
    pub fn paths_of(&self, statement: u32) -> &[Path]
        requires from { 1 ≤ statement }
        requires to { statement ≤ length self.now }
        ensures value { result.now ≡ (outline_at self.now statement).paths }
        ensures ascending { IsAscending result.now }
    {
        self.outlines[statement as usize - 1].paths()
    }
}
