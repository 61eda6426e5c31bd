//! The plain run of a program.

ghost use Rattle.std.specs.Prelude.{◌≡◌, Ok, None};
ghost use Rattle.programs.specs.Check.{check, limit_of};
ghost use Rattle.programs.specs.Outlines.{outlines};
ghost use Rattle.programs.specs.Vectors.{tables};
ghost use Rattle.voodoo_ops.specs.Meaning.{meaning};
ghost use Rattle.voodoo_ops.specs.Stops.{Runs};

use crate::Results;
use crate::evaluate::evaluate;
use programs::{Program, Shape};
use slot_columns::Stop;
use std::alloc::{AllocError, Global};
use struct_vectors::Store;
use thiserror::Error;

/// Why a run gave no results.
#[derive(Clone, Copy, Debug, PartialEq, Eq, Error)]
pub enum RunRefusal {
    /// A number that a reached statement makes leaves 128 bits.
    #[error("a number leaves 128 bits")]
    Overflow,
    /// Memory was refused.
    #[error("out of memory")]
    NoMemory,
}

impl From<AllocError> for RunRefusal {
    ghost use Rattle.voodoo_ops.specs.declared.run.RunRefusal.{RunRefusal};

    ghost from_gives = { λ _ refusal. refusal ≡ RunRefusal.NoMemory };

    fn from(_: AllocError) -> RunRefusal {
        RunRefusal::NoMemory
    }
}

/// The named results of a program over a store: the statements that some Persist reaches, operator by
/// operator, in order. It gives just what the program means, and `Overflow` exactly where that is that
/// a number leaves 128 bits. `shape` is what `check` gave for this program and store.
pub fn run_plain(
    alloc: Global,
    p: &Program,
    shape: &Shape,
    store: &Store,
) -> Result<Results, RunRefusal>
    requires checked { check (outlines (tables store.now)) p.now ≡ Ok shape.now }
    requires small { limit_of shape.now ≡ None }
    ensures { Runs result (meaning (tables store.now) p.now) }
{
    let _shape = shape;
    match evaluate(alloc, p, store) {
        Ok(results) => Ok(results),
        Err(Stop::NoMemory) => Err(RunRefusal::NoMemory),
        Err(Stop::Overflow) => Err(RunRefusal::Overflow),
    }
}
