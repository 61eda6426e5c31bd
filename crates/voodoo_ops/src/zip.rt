//! Zip: the attributes of two vectors, at the shorter length.

ghost use Rattle.std.specs.Prelude.{◌≡◌, ◌+◌, ◌++◌, ◌∷◌, [], true, false, is_some, length, reverse, IfOk, IfNone, OnOk, Ok};
ghost use Rattle.std.specs.Option.{option_to_list};
ghost use Rattle.slot_columns.specs.Stops.{Exact};
ghost use Rattle.programs.specs.Faults.{path_clash};
ghost use Rattle.programs.specs.Merges.{merged};
ghost use Rattle.programs.specs.Outlines.{outline_of};
ghost use Rattle.programs.specs.Vectors.{known, seen};
ghost use Rattle.voodoo_ops.specs.Attributes.{zipped};
ghost use Rattle.voodoo_ops.specs.Columns.{earlier, front_column, fronts};
ghost use Rattle.voodoo_ops.specs.Envs.{env_in};
ghost use Rattle.voodoo_ops.specs.Handing.{HandsOn, TakesLast};
ghost use Rattle.voodoo_ops.specs.Later.{Keeps, LeavesOthers};

use crate::NoMemory;
use crate::handing::taken;
use crate::later::Later;
use crate::made::Made;
use crate::reading::vector;
use held_vectors::HeldVector;
use io_edge::Name;
use key_paths::Path;
use slot_columns::Stop;
use std::alloc::Global;
use struct_vectors::Column;

/// The vector that Zip makes.
pub(crate) fn zip_made(
    alloc: Global,
    made: &mut Made,
    a: &Name,
    b: &Name,
    later: Later,
) -> Result<HeldVector, Stop>
    requires a { is_some ((env_in made.old) a.now) ≡ true }
    requires b { is_some ((env_in made.old) b.now) ≡ true }
    requires clear { path_clash (outline_of (zipped (known ((env_in made.old) a.now)) (known ((env_in made.old) b.now)))) ≡ false }
    ensures made { Exact seen result (Ok (zipped (known ((env_in made.old) a.now)) (known ((env_in made.old) b.now)))) }
    ensures kept { OnOk result (Keeps later.entry (env_in made.old) (env_in made.new)) }
{
    let n = vector(made, a).len().min(vector(made, b).len());
    let firsts = fronts_beside(alloc, made, a, b, n, later)?;
    let seconds = fronts_of(alloc, made, b, n, later)?;
    let attributes = merge(alloc, firsts, seconds)?;
    Ok(HeldVector::of_ordered(n, attributes))
}

/// The attributes of both, at the shorter length. They are not in each other's way.
pub(crate) fn zip(alloc: Global, a: HeldVector, b: HeldVector) -> Result<HeldVector, NoMemory>
    requires { path_clash (outline_of (zipped (seen a) (seen b))) ≡ false }
    ensures { IfOk result (λ v. seen v ≡ zipped (seen a) (seen b)) }
{
    let n = a.len().min(b.len());
    let firsts = cut(alloc, a.into_attributes(), n)?;
    let seconds = cut(alloc, b.into_attributes(), n)?;
    let attributes = merge(alloc, firsts, seconds)?;
    Ok(HeldVector::of_ordered(n, attributes))
}

// ---- the first slots
/// The first slots of each attribute of a named vector, beside another one that stays where it is.
fn fronts_beside(
    alloc: Global,
    made: &mut Made,
    a: &Name,
    b: &Name,
    n: u32,
    later: Later,
) -> Result<Vec<(Path, Column)>, NoMemory>
    requires { is_some ((env_in made.old) a.now) ≡ true }
    ensures part { IfOk result (λ r. HandsOn (known ((env_in made.old) a.now)) (fronts n) r.items) }
    ensures stays { OnOk result ((env_in made.new) b.now ≡ (env_in made.old) b.now) }
    ensures kept { OnOk result (Keeps later.entry (env_in made.old) (env_in made.new)) }
{
    if a.text() == b.text() {
        let copies = copied_fronts(alloc, vector(made, a), n)?;
        return Ok(copies);
    }
    let fronts = fronts_of(alloc, made, a, n, later)?;
    Ok(fronts)
}

/// The first slots of each attribute of a named vector.
fn fronts_of(
    alloc: Global,
    made: &mut Made,
    a: &Name,
    n: u32,
    later: Later,
) -> Result<Vec<(Path, Column)>, NoMemory>
    requires { is_some ((env_in made.old) a.now) ≡ true }
    ensures part { IfOk result (λ r. HandsOn (known ((env_in made.old) a.now)) (fronts n) r.items) }
    ensures others { OnOk result (LeavesOthers a.now (env_in made.old) (env_in made.new)) }
    ensures kept { OnOk result (Keeps later.entry (env_in made.old) (env_in made.new)) }
{
    match taken(made, a, later) {
        Some(v) => {
            let fronts = cut(alloc, v.into_attributes(), n)?;
            Ok(fronts)
        }
        None => {
            let copies = copied_fronts(alloc, vector(made, a), n)?;
            Ok(copies)
        }
    }
}

/// The first slots of each attribute.
fn cut(
    alloc: Global,
    attributes: Vec<(Path, Column)>,
    n: u32,
) -> Result<Vec<(Path, Column)>, NoMemory>
    ensures { IfOk result (λ r. r.items ≡ fronts n attributes.items) }
{
    let mut fronts = Vec::with_capacity(alloc, attributes.len())?;
    for (path, column) in attributes {
        let column = front(alloc, column, n)?;
        fronts.push((path, column))?;
    }
    Ok(fronts)
}

/// The first slots of a column.
fn front(alloc: Global, column: Column, n: u32) -> Result<Column, NoMemory>
    ensures { IfOk result (λ c. c ≡ front_column n column) }
{
    if n < column.len() {
        let front = column.front(alloc, n)?;
        return Ok(front);
    }
    Ok(column)
}

/// Copies of the first slots of each attribute.
fn copied_fronts(alloc: Global, v: &HeldVector, n: u32) -> Result<Vec<(Path, Column)>, NoMemory>
    ensures { IfOk result (λ r. r.items ≡ fronts n v.now.attributes) }
{
    let mut fronts = Vec::with_capacity(alloc, v.attributes().len())?;
    for attribute in v.attributes() {
        push_front(alloc, &mut fronts, attribute, n)?;
    }
    Ok(fronts)
}

/// Appends a copy of the first slots of an attribute.
fn push_front(
    alloc: Global,
    fronts: &mut Vec<(Path, Column)>,
    attribute: &(Path, Column),
    n: u32,
) -> Result<(), NoMemory>
    ensures { OnOk result (fronts.new.items ≡ fronts.old.items ++ (attribute.now.0, front_column n attribute.now.1) ∷ []) }
{
    let path = attribute.0.copied(alloc)?;
    let column = attribute.1.front(alloc, n.min(attribute.1.len()))?;
    fronts.push((path, column))?;
    Ok(())
}

// ---- two lists as one
/// The attributes of both, in order.
fn merge(
    alloc: Global,
    firsts: Vec<(Path, Column)>,
    seconds: Vec<(Path, Column)>,
) -> Result<Vec<(Path, Column)>, NoMemory>
    ensures { IfOk result (λ r. r.items ≡ merged earlier firsts.items seconds.items) }
{
    let mut left = firsts;
    let mut right = seconds;
    left.reverse();
    right.reverse();
    let mut attributes = Vec::with_capacity(alloc, left.len())?;
    while let Some(next) = pop_first(&mut left, &mut right) {
        attributes.push(next)?;
    }
    Ok(attributes)
}

/// The first attribute of two lists that are kept in reverse.
fn pop_first(
    left: &mut Vec<(Path, Column)>,
    right: &mut Vec<(Path, Column)>,
) -> Option<(Path, Column)>
    ensures first { merged earlier (reverse left.old.items) (reverse right.old.items)
        ≡ option_to_list result ++ merged earlier (reverse left.new.items) (reverse right.new.items) }
    ensures all { IfNone result (merged earlier (reverse left.old.items) (reverse right.old.items) ≡ []) }
    ensures fewer { length left.new.items + length right.new.items + length (option_to_list result) ≡ length left.old.items + length right.old.items }
{
    if takes_second(left.as_slice(), right.as_slice()) {
        right.pop()
    } else {
        left.pop()
    }
}

/// Whether the second of two lists that are kept in reverse has the first of the attributes that are left;
/// of equal paths the first list's comes first.
fn takes_second(left: &[(Path, Column)], right: &[(Path, Column)]) -> bool
    ensures { TakesLast left.now right.now result }
{
    let n = left.len();
    let m = right.len();
    m > 0 && (n == 0 || right[m - 1].0 < left[n - 1].0)
}
