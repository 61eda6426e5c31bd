//! The step that reads the program, and its results.

ghost use Rattle.std.specs.Prelude.{◌≡◌, ◌≤◌, ◌<◌, ◌^◌, IfErr, IfOk, IfSome, Ok, None, length};
ghost use Rattle.programs.specs.Check.{check, limit_of};
ghost use Rattle.programs.specs.Outlines.{outlines};
ghost use Rattle.programs.specs.Vectors.{seen_all, tables};
ghost use Rattle.voodoo_ops.specs.Meaning.{meaning};
ghost use Rattle.run_steps.specs.Inputs.{HasFileCause, IsProgramRefusal, IsRunRefusal};
ghost use Rattle.run_steps.specs.Outcomes.{Meets};
ghost use Rattle.run_steps.specs.Steps as spec;

use crate::inputs::{PROGRAM_LIMIT, read_file};
use crate::status::{AlgebraCause, FileRole, LimitWhat, Status};
use io_edge::Shelf;
use programs::{Program, ProgramRefusal, Shape};
use std::alloc::Global;
use struct_vectors::Store;
use table_load::Database;
use voodoo_ops::{Results, RunRefusal, run_plain};
use voodoo_text::{ReadProgram, TextRefusal, read_program};

/// A program that can be run, with its shape.
#[derive(Drop)]
pub struct Runnable {
    pub program: Program,
    pub shape: Shape,
}

/// The program, where it can be run over the tables.
pub fn read_runnable<S: Shelf>(
    alloc: Global,
    shelf: &mut S,
    file: &str,
    db: &Database,
) -> Result<Runnable, Status>
    ensures same_files { S.holds shelf.new ≡ S.holds shelf.old }
    ensures later { S.faults shelf.old ≤ S.faults shelf.new }
    ensures program { IfSome (S.holds shelf.old) (λ files. Meets (λ r. r.program) result (spec.program_in files file.now db.now)) }
    ensures checked { IfOk result (λ r. check (outlines (tables db.now.store)) r.program ≡ Ok r.shape) }
    ensures short { IfOk result (λ r. limit_of r.shape ≡ None) }
    ensures cause { IfErr result (HasFileCause (S.holds shelf.old) FileRole.Text file.now (S.faults shelf.old) (S.faults shelf.new)) }
{
    let bytes = read_file(alloc, shelf, FileRole::Text, PROGRAM_LIMIT, file)?;
    runnable_of(alloc, bytes.as_slice(), db.store())
}

/// The program of a text, where it can be run.
fn runnable_of(alloc: Global, bytes: &[u8], store: &Store) -> Result<Runnable, Status>
    requires { length bytes.now < 2 ^ 32 }
    ensures program { Meets (λ r. r.program) result (spec.program_over (tables store.now) bytes.now) }
    ensures checked { IfOk result (λ r. check (outlines (tables store.now)) r.program ≡ Ok r.shape) }
    ensures short { IfOk result (λ r. limit_of r.shape ≡ None) }
    ensures kind { IfErr result IsProgramRefusal }
{
    match read_program(alloc, bytes) {
        Ok(read) => checked(alloc, read, store),
        Err(TextRefusal::NoMemory) => Err(Status::NoMemory),
        Err(TextRefusal::Bad { line, kind }) => Err(Status::AlgebraRefused {
            line,
            kind: AlgebraCause::Text(kind),
        }),
    }
}

/// The program that was read, where its check takes it and no vector is too long.
fn checked(alloc: Global, read: ReadProgram, store: &Store) -> Result<Runnable, Status>
    ensures program { Meets (λ r. r.program) result (spec.runnable (tables store.now) read) }
    ensures checked { IfOk result (λ r. check (outlines (tables store.now)) r.program ≡ Ok r.shape) }
    ensures short { IfOk result (λ r. limit_of r.shape ≡ None) }
    ensures kind { IfErr result IsProgramRefusal }
{
    let ReadProgram { program, lines } = read;
    match program.check(alloc, store) {
        Ok(shape) => within_slots(program, shape),
        Err(ProgramRefusal::NoMemory) => Err(Status::NoMemory),
        Err(ProgramRefusal::Bad { statement, kind }) => Err(Status::AlgebraRefused {
            line: line_of(lines.numbers(), statement),
            kind: AlgebraCause::Program(kind),
        }),
    }
}

/// The line of a statement, by its number from 1 on; 0 where none is named.
fn line_of(lines: &[u32], statement: u32) -> u32
    ensures { result ≡ spec.line_of lines.now statement }
{
    match statement.checked_sub(1) {
        None => 0,
        Some(place) => match lines.get(place as usize) {
            None => 0,
            Some(line) => *line,
        },
    }
}

/// The program with its shape, where no vector is too long.
fn within_slots(program: Program, shape: Shape) -> Result<Runnable, Status>
    ensures program { Meets (λ r. r.program) result (spec.within_slots program (limit_of shape)) }
    ensures same { IfOk result (λ r. r.program ≡ program) }
    ensures shape { IfOk result (λ r. r.shape ≡ shape) }
    ensures short { IfOk result (λ r. limit_of r.shape ≡ None) }
    ensures kind { IfErr result IsProgramRefusal }
{
    match shape.limit() {
        None => Ok(Runnable { program, shape }),
        Some((_, number)) => Err(Status::LimitReached {
            what: LimitWhat::Slots,
            number,
        }),
    }
}

/// The results of a program.
pub fn results_of(alloc: Global, r: &Runnable, store: &Store) -> Result<Results, Status>
    requires checked { check (outlines (tables store.now)) r.now.program ≡ Ok r.now.shape }
    requires short { limit_of r.now.shape ≡ None }
    ensures results { Meets seen_all result (spec.results_outcome (meaning (tables store.now) r.now.program)) }
    ensures kind { IfErr result IsRunRefusal }
{
    match run_plain(alloc, &r.program, &r.shape, store) {
        Ok(results) => Ok(results),
        Err(RunRefusal::Overflow) => Err(Status::Overflow),
        Err(RunRefusal::NoMemory) => Err(Status::NoMemory),
    }
}
