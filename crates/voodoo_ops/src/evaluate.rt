//! The plain evaluation: the reached statements, operator by operator, in order. A vector is let go behind
//! the last of them that reads it.

ghost use Rattle.std.specs.Prelude.{◌≡◌, ◌++◌, ◌∷◌, [], false, true, is_some, IfOk, OnOk, Ok};
ghost use Rattle.slot_columns.specs.Stops.{Exact};
ghost use Rattle.last_readers.specs.Readers.{AreLast};
ghost use Rattle.programs.specs.Families.{family};
ghost use Rattle.programs.specs.Mentions.{is_persist};
ghost use Rattle.programs.specs.Outlines.{outlines};
ghost use Rattle.programs.specs.Vectors.{known, seen, seen_all, tables};
ghost use Rattle.voodoo_ops.specs.Envs.{env_in};
ghost use Rattle.voodoo_ops.specs.Fits.{Fits, Runnable};
ghost use Rattle.voodoo_ops.specs.Later.{Advances, Keeps};
ghost use Rattle.voodoo_ops.specs.Meaning.{effect, meaning, result_of, step};
ghost use Rattle.voodoo_ops.specs.Stops.{Makes};

use crate::NoMemory;
use crate::attributes::{project_made, upsert_made};
use crate::folds::fold_made;
use crate::handing::{forget, handed_on};
use crate::later::{Later, is_reached};
use crate::made::Made;
use crate::moves::{gather_made, rank_made, scatter_made};
use crate::ranges::{cross_made, range_made};
use crate::results::Results;
use crate::slotwise::{pair_made, shift_made};
use crate::sorting::order_made;
use crate::zip::zip_made;
use held_vectors::HeldVector;
use io_edge::Name;
use last_readers::{LastReaders, last_readers, mentions_of};
use programs::{Family, Op, Program, Statement};
use slot_columns::Stop;
use std::alloc::Global;
use struct_vectors::{Store, StructVector};

/// The named results of a program over a store.
pub(crate) fn evaluate(alloc: Global, p: &Program, store: &Store) -> Result<Results, Stop>
    requires { Runnable (tables store.now) p.now }
    ensures { Exact seen_all result (meaning (tables store.now) p.now) }
{
    let readers = last_readers(alloc, p.statements())?;
    let named = run_reached(alloc, p.statements(), &readers, store)?;
    Ok(Results::of(named))
}

/// The results that the reached statements name, in order.
fn run_reached(
    alloc: Global,
    statements: &[Statement],
    readers: &LastReaders,
    store: &Store,
) -> Result<Vec<(Name, StructVector)>, Stop>
    requires runnable { Runnable (tables store.now) statements.now }
    requires last { AreLast readers.now statements.now }
    ensures { Exact (λ named. seen_all named.items) result (meaning (tables store.now) statements.now) }
{
    let mut made = Made::nothing(alloc);
    let mut named = Vec::new(alloc);
    for i in 0..statements.len() {
        let later = Later {
            readers,
            from: i + 1,
        };
        let statement = &statements[i];
        if is_reached(statement, later) {
            run_one(alloc, store, &mut made, &mut named, statement, later)?;
        }
    }
    Ok(named)
}

/// Adds the vector that a statement makes, or the result that it names.
fn run_one(
    alloc: Global,
    store: &Store,
    made: &mut Made,
    named: &mut Vec<(Name, StructVector)>,
    s: &Statement,
    later: Later,
) -> Result<(), Stop>
    requires { Fits (outlines (tables store.now)) (outlines (env_in made.old)) (family s.now.op) }
    ensures step { Advances later.entry result (step (tables store.now) (env_in made.old) s.now.name s.now.op) (env_in made.new) }
    ensures named { OnOk result (seen_all named.new.items ≡ seen_all named.old.items ++ result_of (env_in made.old) s.now.name (family s.now.op) []) }
{
    if let Op::Persist { a } = &s.op {
        let v = handed_on(alloc, made, a, later)?;
        name_result(alloc, named, &s.name, v)?;
        return Ok(());
    }
    add_vector(alloc, store, made, s, later)
}

/// Adds a result.
fn name_result(
    alloc: Global,
    named: &mut Vec<(Name, StructVector)>,
    name: &Name,
    v: HeldVector,
) -> Result<(), NoMemory>
    ensures { OnOk result (seen_all named.new.items ≡ seen_all named.old.items ++ (name.now, seen v) ∷ []) }
{
    let name = name.copied(alloc)?;
    let v = v.into_vector(alloc)?;
    named.push((name, v))?;
    Ok(())
}

/// Adds the vector that a statement makes.
fn add_vector(
    alloc: Global,
    store: &Store,
    made: &mut Made,
    s: &Statement,
    later: Later,
) -> Result<(), Stop>
    requires fits { Fits (outlines (tables store.now)) (outlines (env_in made.old)) (family s.now.op) }
    requires makes { is_persist s.now.op ≡ false }
    ensures { Advances later.entry result (step (tables store.now) (env_in made.old) s.now.name s.now.op) (env_in made.new) }
{
    let v = make(alloc, store, made, &s.op, later)?;
    forget(made, mentions_of(&s.op), later);
    made.put(alloc, &s.name, v)?;
    Ok(())
}

/// The vector that an operator makes of the vectors by name.
fn make(
    alloc: Global,
    store: &Store,
    made: &mut Made,
    op: &Op,
    later: Later,
) -> Result<HeldVector, Stop>
    requires fits { Fits (outlines (tables store.now)) (outlines (env_in made.old)) (family op.now) }
    requires makes { is_persist op.now ≡ false }
    ensures made { Makes result (effect (tables store.now) (env_in made.old) op.now) }
    ensures kept { OnOk result (Keeps later.entry (env_in made.old) (env_in made.new)) }
{
    match op.family() {
        Family::Load { table } => load_made(alloc, store, table),
        Family::Persist { .. } => unreachable!(),
        Family::Range { size, out, control } => range_made(alloc, made, size, out, control),
        Family::Cross { a, p, b, q } => cross_made(alloc, made, a, p, b, q),
        Family::Zip { a, b } => zip_made(alloc, made, a, b, later),
        Family::Project { a, p, q } => project_made(alloc, made, a, p, q, later),
        Family::Upsert { a, p, b, q } => upsert_made(alloc, made, a, p, b, q, later),
        Family::Gather { a, b, pos } => gather_made(alloc, made, a, b, pos),
        Family::Scatter { a, size, b, pos } => scatter_made(alloc, made, a, size, b, pos),
        Family::Rank(kind, args) => rank_made(alloc, made, kind, args),
        Family::Materialize { a } => copy_made(alloc, made, a, later),
        Family::Break { a } => copy_made(alloc, made, a, later),
        Family::Fold(kind, args) => fold_made(alloc, made, kind, args),
        Family::Order { a, mark, out, keys } => order_made(alloc, made, a, mark, out, keys),
        Family::Pair(kind, args) => pair_made(alloc, made, kind, args),
        Family::BitShift { x, by, out } => shift_made(alloc, made, x, by, out),
    }
}

/// A copy of a table.
fn load_made(alloc: Global, store: &Store, table: &Name) -> Result<HeldVector, Stop>
    requires { is_some (tables store.now table.now) ≡ true }
    ensures { Exact seen result (Ok (known (tables store.now table.now))) }
{
    match store.table(table) {
        Some(v) => Ok(HeldVector::of_table(alloc, v)?),
        None => unreachable!(),
    }
}

/// The vector of a name again.
fn copy_made(alloc: Global, made: &mut Made, a: &Name, later: Later) -> Result<HeldVector, Stop>
    requires { is_some ((env_in made.old) a.now) ≡ true }
    ensures made { Exact seen result (Ok (known ((env_in made.old) a.now))) }
    ensures kept { OnOk result (Keeps later.entry (env_in made.old) (env_in made.new)) }
{
    Ok(handed_on(alloc, made, a, later)?)
}
