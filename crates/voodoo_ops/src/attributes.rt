//! Project and Upsert: attributes of a vector under other paths, and one attribute in place of others.
//! Columns are handed on where nothing later reads their vector, and else copied.

ghost use Rattle.std.specs.Prelude.{◌≡◌, ◌++◌, ◌∷◌, [], ◌<◌, ◌≤◌, ◌^◌, true, false, is_some, length, map, All, IfOk, OnOk, Ok};
ghost use Rattle.std.specs.List.{list_any, prefix_len};
ghost use Rattle.std.specs.Map.{lookup};
ghost use Rattle.std.specs.Str.{bytes_eq};
ghost use Rattle.key_paths.specs.Paths.{IsPath};
ghost use Rattle.key_paths.specs.Substructures.{is_at_or_below, is_before};
ghost use Rattle.struct_vectors.specs.Vectors.{paths_of};
ghost use Rattle.slot_columns.specs.Stops.{Exact};
ghost use Rattle.programs.specs.Faults.{path_clash, too_deep};
ghost use Rattle.programs.specs.Merges.{merged};
ghost use Rattle.programs.specs.Moves.{is_deep, moved};
ghost use Rattle.programs.specs.Outlines.{outline_of};
ghost use Rattle.programs.specs.Vectors.{known, seen, slots_of};
ghost use Rattle.voodoo_ops.specs.Attributes.{projected, resized, upserted};
ghost use Rattle.voodoo_ops.specs.Columns.{earlier};
ghost use Rattle.voodoo_ops.specs.Envs.{env_in};
ghost use Rattle.voodoo_ops.specs.Handing.{HandsOn, is_on, on_side, under};
ghost use Rattle.voodoo_ops.specs.Later.{Keeps};
ghost use Rattle.voodoo_ops.specs.Reading.{HasAttribute};

use crate::NoMemory;
use crate::handing::taken;
use crate::later::Later;
use crate::made::Made;
use crate::reading::{attribute, vector};
use held_vectors::HeldVector;
use io_edge::Name;
use key_paths::Path;
use programs::moving::moved_path;
use slot_columns::{ColumnBuilder, Stop};
use slot_wise::Source;
use slot_wise::source::slot_of;
use std::alloc::Global;
use struct_vectors::Column;

/// The vector that Project makes.
pub(crate) fn project_made(
    alloc: Global,
    made: &mut Made,
    a: &Name,
    p: &Path,
    q: &Path,
    later: Later,
) -> Result<HeldVector, Stop>
    requires source { is_some ((env_in made.old) a.now) ≡ true }
    requires clear { path_clash (outline_of (projected (known ((env_in made.old) a.now)) p.now q.now)) ≡ false }
    requires shallow { too_deep (outline_of (projected (known ((env_in made.old) a.now)) p.now q.now)) ≡ false }
    ensures made { Exact seen result (Ok (projected (known ((env_in made.old) a.now)) p.now q.now)) }
    ensures kept { OnOk result (Keeps later.entry (env_in made.old) (env_in made.new)) }
{
    let n = vector(made, a).len();
    let below = attributes_on(alloc, made, a, Side::Below, p, later)?;
    let attributes = moved_attributes(alloc, below, p, q)?;
    Ok(HeldVector::of_ordered(n, attributes))
}

/// The vector that Upsert makes.
pub(crate) fn upsert_made(
    alloc: Global,
    made: &mut Made,
    a: &Name,
    p: &Path,
    b: &Name,
    q: &Path,
    later: Later,
) -> Result<HeldVector, Stop>
    requires source { is_some ((env_in made.old) a.now) ≡ true }
    requires attribute { HasAttribute (env_in made.old) b.now q.now }
    requires clear { path_clash (outline_of (upserted (known ((env_in made.old) a.now)) p.now (known ((env_in made.old) b.now)) q.now)) ≡ false }
    ensures made { Exact seen result (Ok (upserted (known ((env_in made.old) a.now)) p.now (known ((env_in made.old) b.now)) q.now)) }
    ensures kept { OnOk result (Keeps later.entry (env_in made.old) (env_in made.new)) }
{
    let n = vector(made, a).len();
    let column = column_beside(alloc, made, a, b, q, n, later)?;
    let others = attributes_on(alloc, made, a, Side::Beside, p, later)?;
    let attributes = with_attribute(alloc, others, p, column)?;
    Ok(HeldVector::of_ordered(n, attributes))
}

// ---- the attributes of a vector that are at or below a path, or those that are not
/// Which attributes of a vector are handed on, by a path.
#[derive(Clone, Copy)]
pub enum Side {
    /// Those at the path or below it.
    Below,
    /// The others.
    Beside,
}

/// Whether a path is on a side of another.
fn stands_on(side: Side, path: &Path, p: &Path) -> bool
    ensures { result ≡ is_on side path.now p.now }
{
    match side {
        Side::Below => path.starts_with(p),
        Side::Beside => !path.starts_with(p),
    }
}

/// The attributes of a named vector on one side of a path.
fn attributes_on(
    alloc: Global,
    made: &mut Made,
    a: &Name,
    side: Side,
    p: &Path,
    later: Later,
) -> Result<Vec<(Path, Column)>, NoMemory>
    requires { is_some ((env_in made.old) a.now) ≡ true }
    ensures part { IfOk result (λ r. HandsOn (known ((env_in made.old) a.now)) (on_side side p.now) r.items) }
    ensures kept { OnOk result (Keeps later.entry (env_in made.old) (env_in made.new)) }
{
    match taken(made, a, later) {
        Some(v) => {
            let chosen = chosen_attributes(alloc, v.into_attributes(), side, p)?;
            Ok(chosen)
        }
        None => {
            let copies = copied_attributes(alloc, vector(made, a), side, p)?;
            Ok(copies)
        }
    }
}

/// The attributes on one side of a path, as they are.
fn chosen_attributes(
    alloc: Global,
    attributes: Vec<(Path, Column)>,
    side: Side,
    p: &Path,
) -> Result<Vec<(Path, Column)>, NoMemory>
    ensures { IfOk result (λ r. r.items ≡ on_side side p.now attributes.items) }
{
    let mut chosen = Vec::with_capacity(alloc, attributes.len())?;
    for attribute in attributes {
        if stands_on(side, &attribute.0, p) {
            chosen.push(attribute)?;
        }
    }
    Ok(chosen)
}

/// Copies of the attributes on one side of a path.
fn copied_attributes(
    alloc: Global,
    v: &HeldVector,
    side: Side,
    p: &Path,
) -> Result<Vec<(Path, Column)>, NoMemory>
    ensures { IfOk result (λ r. r.items ≡ on_side side p.now v.now.attributes) }
{
    let mut copies = Vec::new(alloc);
    for attribute in v.attributes() {
        if stands_on(side, &attribute.0, p) {
            push_copy(alloc, &mut copies, attribute)?;
        }
    }
    Ok(copies)
}

/// Appends a copy of an attribute.
fn push_copy(
    alloc: Global,
    copies: &mut Vec<(Path, Column)>,
    attribute: &(Path, Column),
) -> Result<(), NoMemory>
    ensures { OnOk result (copies.new.items ≡ copies.old.items ++ attribute.now ∷ []) }
{
    let path = attribute.0.copied(alloc)?;
    let column = attribute.1.copied(alloc)?;
    copies.push((path, column))?;
    Ok(())
}

// ---- other paths
/// Attributes at or below `p`, with `q` in place of `p` at the start of their paths.
fn moved_attributes(
    alloc: Global,
    attributes: Vec<(Path, Column)>,
    p: &Path,
    q: &Path,
) -> Result<Vec<(Path, Column)>, NoMemory>
    requires below { All (λ t. is_at_or_below t.0 p.now ≡ true) attributes.items }
    requires shallow { list_any is_deep (paths_of (map (under p.now q.now) attributes.items)) ≡ false }
    ensures moved { IfOk result (λ r. r.items ≡ map (under p.now q.now) attributes.items) }
    ensures paths { IfOk result (λ r. All IsPath (paths_of r.items)) }
    ensures ends { IfOk result (λ r. 0 < length r.items → IsPath p.now × IsPath q.now) }
{
    let mut moved = Vec::with_capacity(alloc, attributes.len())?;
    for (path, column) in attributes {
        push_moved(alloc, &mut moved, &path, column, p, q)?;
    }
    Ok(moved)
}

/// Appends a column with `q` in place of `p` at the start of its path.
fn push_moved(
    alloc: Global,
    to: &mut Vec<(Path, Column)>,
    path: &Path,
    column: Column,
    p: &Path,
    q: &Path,
) -> Result<(), NoMemory>
    requires below { is_at_or_below path.now p.now ≡ true }
    requires shallow { is_deep (moved p.now q.now path.now) ≡ false }
    ensures pushed { OnOk result (to.new.items ≡ to.old.items ++ (moved p.now q.now path.now, column) ∷ []) }
    ensures path { OnOk result (IsPath (moved p.now q.now path.now)) }
    ensures from { OnOk result (IsPath p.now) }
    ensures to { OnOk result (IsPath q.now) }
{
    let Some(path) = moved_path(alloc, path, p, q)? else {
        unreachable!()
    };
    to.push((path, column))?;
    Ok(())
}

// ---- one attribute in place of others
/// The slots that Upsert puts beside the attributes of a vector of `n` slots, which stays where it is.
fn column_beside(
    alloc: Global,
    made: &mut Made,
    a: &Name,
    b: &Name,
    q: &Path,
    n: u32,
    later: Later,
) -> Result<Column, NoMemory>
    requires attribute { HasAttribute (env_in made.old) b.now q.now }
    requires short { n ≤ 2 ^ 22 }
    ensures slots { IfOk result (λ c. c.slots ≡ resized n (slots_of (known ((env_in made.old) b.now)).attributes q.now)) }
    ensures stays { OnOk result ((env_in made.new) a.now ≡ (env_in made.old) a.now) }
    ensures kept { OnOk result (Keeps later.entry (env_in made.old) (env_in made.new)) }
{
    if a.text() == b.text() {
        let copy = resized_column(alloc, attribute(made, b, q), n)?;
        return Ok(copy);
    }
    match taken(made, b, later) {
        Some(v) => {
            let column = cut_or_grown(alloc, column_of(v, q), n)?;
            Ok(column)
        }
        None => {
            let copy = resized_column(alloc, attribute(made, b, q), n)?;
            Ok(copy)
        }
    }
}

/// The column at a path.
fn column_of(v: HeldVector, q: &Path) -> Column
    requires { is_some (lookup (bytes_eq q.now) (seen v).attributes) ≡ true }
    ensures { result.slots ≡ slots_of (seen v).attributes q.now }
{
    for (path, column) in v.into_attributes() {
        if q.text() == path.text() {
            return column;
        }
    }
    unreachable!()
}

/// The first slots of a column, and empty ones past its end.
fn cut_or_grown(alloc: Global, column: Column, n: u32) -> Result<Column, NoMemory>
    requires { n ≤ 2 ^ 22 }
    ensures { IfOk result (λ c. c.slots ≡ resized n column.slots) }
{
    if column.len() == n {
        return Ok(column);
    }
    let other = resized_column(alloc, &column, n)?;
    Ok(other)
}

/// A copy of the first slots of a column, and empty ones past its end.
fn resized_column(alloc: Global, column: &Column, n: u32) -> Result<Column, NoMemory>
    requires { n ≤ 2 ^ 22 }
    ensures { IfOk result (λ c. c.slots ≡ resized n column.now.slots) }
{
    if n <= column.len() {
        let front = column.front(alloc, n)?;
        return Ok(front);
    }
    let mut builder = ColumnBuilder::with_room(alloc, n)?;
    for i in 0..n {
        builder.push(slot_of(Source::Column(column), i))?;
    }
    Ok(builder.done())
}

/// Attributes with one more, in its place among them.
fn with_attribute(
    alloc: Global,
    others: Vec<(Path, Column)>,
    p: &Path,
    column: Column,
) -> Result<Vec<(Path, Column)>, NoMemory>
    ensures entered { IfOk result (λ r. r.items ≡ merged earlier ((p.now, column) ∷ []) others.items) }
    ensures path { OnOk result (IsPath p.now) }
{
    let mut attributes = others;
    let path = p.copied(alloc)?;
    let place = count_before(attributes.as_slice(), p);
    attributes.insert(place, (path, column))?;
    Ok(attributes)
}

/// How many attributes stand before a path, up to the first that does not.
fn count_before(attributes: &[(Path, Column)], p: &Path) -> usize
    ensures { result ≡ prefix_len (λ t. is_before t.0 p.now) attributes.now }
{
    attributes.iter().take_while(|t| t.0 < *p).count()
}
