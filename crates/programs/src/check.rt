//! The check of a program: whether it can be run over a store, and the first reason why not.

ghost use Rattle.std.specs.Prelude.{◌≡◌, ◌+◌, ◌-◌, ◌^◌, ◌<◌, ◌≤◌, length, IfOk, IfErr, Ok};
ghost use Rattle.programs.specs.Check.{check, check_from, check_one, at_start, known_behind, names_result};
ghost use Rattle.programs.specs.Faults.{path_clash};
ghost use Rattle.programs.specs.Outlines.{outlines};
ghost use Rattle.programs.specs.Parts.{known_in};
ghost use Rattle.programs.specs.Refusals.{Checks, RefusesAt};
ghost use Rattle.programs.specs.Vectors.{tables};

use crate::faults::fault_of;
use crate::known::Known;
use crate::making::made_draft;
use crate::outline::Outline;
use crate::{NoMemory, Program, ProgramKind, Shape, Statement};
use std::alloc::{AllocError, Global};
use struct_vectors::Store;
use thiserror::Error;

/// How many statements a program may have.
const MOST_STATEMENTS: usize = 65_536;

/// Why a program is not run.
#[derive(Clone, Copy, Debug, Drop, Error)]
pub enum ProgramRefusal {
    /// The first bad statement, counted from 1, and what is wrong with it. `NoPersist` has no
    /// statement: it stands at 0.
    #[error("statement {statement}: {kind:?}")]
    Bad { statement: u32, kind: ProgramKind },
    /// Memory was refused.
    #[error("out of memory")]
    NoMemory,
}

impl From<AllocError> for ProgramRefusal {
    ghost use Rattle.std.specs.Prelude.{◌≡◌};
    ghost use Rattle.programs.specs.declared.check.ProgramRefusal.TheVariants.{NoMemory};

    ghost from_gives = { λ _ refusal. refusal ≡ NoMemory };

    fn from(_error: AllocError) -> ProgramRefusal {
        ProgramRefusal::NoMemory
    }
}

impl Program {
    /// The shape of the program over a store: for each statement the length and the paths of its
    /// vector. A refusal names the first bad statement. Too many statements come first, at statement
    /// 65,537; then statement by statement, and within one in this order: a name that no earlier
    /// vector or no table has, a path that is no attribute, numbers alone as operands, attributes in
    /// each other's way, a path of more than eight segments, an order with more than sixteen keys, a
    /// name that another vector or result has; last a program that names no result, at statement 0.
    pub fn check(&self, alloc: Global, store: &Store) -> Result<Shape, ProgramRefusal>
        ensures found { IfOk result (λ shape. check (outlines (tables store.now)) self.now ≡ Ok shape) }
        ensures refused { IfErr result (RefusesAt (check (outlines (tables store.now)) self.now)) }
    {
        if self.statements().len() > MOST_STATEMENTS {
            return Err(bad(65_537, ProgramKind::TooManyStatements));
        }
        let known = check_all(alloc, self.statements(), store)?;
        if !has_persist(self.statements()) {
            return Err(bad(0, ProgramKind::NoPersist));
        }
        Ok(Shape::of(known.into_outlines()))
    }
}

fn bad(statement: u32, kind: ProgramKind) -> ProgramRefusal
    ensures { result ≡ ProgramRefusal.Bad statement kind }
{
    ProgramRefusal::Bad { statement, kind }
}

/// Whether some statement names a result.
fn has_persist(statements: &[Statement]) -> bool
    ensures { result ≡ names_result statements.now }
{
    statements.iter().any(|s| s.op.persists())
}

/// What is known behind all statements, or the first that is bad.
fn check_all(
    alloc: Global,
    statements: &[Statement],
    store: &Store,
) -> Result<Known, ProgramRefusal>
    requires { length statements.now ≤ 65536 }
    ensures checked { Checks known_in result (check_from (outlines (tables store.now)) statements.now at_start) }
    ensures count { IfOk result (λ k. length (known_in k).shape ≡ length statements.now) }
{
    let mut known = Known::nothing(alloc);
    for i in 0..statements.len() {
        match check_statement(alloc, store, known, &statements[i]) {
            Ok(next) => known = next,
            Err(refusal) => return Err(refusal),
        }
    }
    Ok(known)
}

/// What is known behind one more statement.
fn check_statement(
    alloc: Global,
    store: &Store,
    known: Known,
    s: &Statement,
) -> Result<Known, ProgramRefusal>
    requires { length (known_in known).shape < 2 ^ 32 - 1 }
    ensures checked { Checks known_in result (check_one (outlines (tables store.now)) (known_in known) s.now.name s.now.op) }
    ensures count { IfOk result (λ k. length (known_in k).shape ≡ length (known_in known).shape + 1) }
{
    let made = made_draft(alloc, store, &known, &s.op)?;
    if let Some(kind) = fault_of(store, &known, s, &made) {
        return Err(bad(known.next_number(), kind));
    }
    match made {
        Some(draft) => Ok(learn(alloc, known, s, Outline::of(draft))?),
        None => unreachable!(),
    }
}

/// What is known behind a statement that is no fault.
fn learn(alloc: Global, known: Known, s: &Statement, made: Outline) -> Result<Known, NoMemory>
    ensures { IfOk result (λ k. known_in k ≡ known_behind (known_in known) s.now.name s.now.op made) }
{
    if s.op.persists() {
        known.with_result(alloc, &s.name)
    } else {
        known.with_vector(alloc, &s.name, made)
    }
}
