//! Operators that move slots to other places.

ghost use Rattle.std.specs.Prelude.{◌≡◌, ◌++◌, ◌∷◌, [], ◌≤◌, ◌^◌, true, is_some, length, IfOk, OnOk, Ok};
ghost use Rattle.struct_vectors.specs.Vectors.{IsShaped};
ghost use Rattle.slot_columns.specs.Stops.{Exact};
ghost use Rattle.programs.specs.Vectors.{known, seen, seen_attributes};
ghost use Rattle.voodoo_ops.specs.Envs.{env_in};
ghost use Rattle.voodoo_ops.specs.Meaning.{size_of};
ghost use Rattle.voodoo_ops.specs.Moves as spec;
ghost use Rattle.voodoo_ops.specs.Moves.{bucket, moved_to, partition, ranked, scatter};
ghost use Rattle.voodoo_ops.specs.Reading.{CanRank, HasAttribute};

use crate::NoMemory;
use crate::made::Made;
use crate::reading::{attribute, size_in, vector};
use crate::single::named;
use held_vectors::HeldVector;
use io_edge::Name;
use key_paths::Path;
use programs::{RankArgs, RankOperator, Size};
use slot_columns::Stop;
use slot_moves::{buckets, gather, partitions, writers};
use std::alloc::Global;
use struct_vectors::Column;

/// The vector that Gather makes.
pub(crate) fn gather_made(
    alloc: Global,
    made: &Made,
    a: &Name,
    b: &Name,
    pos: &Path,
) -> Result<HeldVector, Stop>
    requires source { is_some ((env_in made.now) a.now) ≡ true }
    requires positions { HasAttribute (env_in made.now) b.now pos.now }
    ensures { Exact seen result (Ok (spec.gather (known ((env_in made.now) a.now)) (known ((env_in made.now) b.now)) pos.now)) }
{
    let positions = attribute(made, b, pos);
    Ok(at_places(alloc, vector(made, a), positions)?)
}

/// The vector that Scatter makes: a gather by the greatest place that writes to each slot.
pub(crate) fn scatter_made(
    alloc: Global,
    made: &Made,
    a: &Name,
    size: &Size,
    b: &Name,
    pos: &Path,
) -> Result<HeldVector, Stop>
    requires source { is_some ((env_in made.now) a.now) ≡ true }
    requires short { size_of (env_in made.now) size.now ≤ 2 ^ 22 }
    requires positions { HasAttribute (env_in made.now) b.now pos.now }
    ensures { Exact seen result
        (Ok (scatter (known ((env_in made.now) a.now)) (size_of (env_in made.now) size.now) (known ((env_in made.now) b.now)) pos.now)) }
{
    let v = vector(made, a);
    let places = writers(alloc, attribute(made, b, pos), v.len(), size_in(made, size))?;
    Ok(at_places(alloc, v, &places)?)
}

/// The slots of each attribute at some places.
fn at_places(alloc: Global, v: &HeldVector, places: &Column) -> Result<HeldVector, NoMemory>
    ensures { IfOk result (λ w. seen w ≡ record {
      len = length places.now.slots;
      attributes = moved_to places.now.slots (seen v.now).attributes;
    }) }
{
    let attributes = attributes_at(alloc, v, places)?;
    Ok(HeldVector::of_ordered(places.len(), attributes))
}

/// The attributes at some places.
fn attributes_at(
    alloc: Global,
    v: &HeldVector,
    places: &Column,
) -> Result<Vec<(Path, Column)>, NoMemory>
    ensures moved { IfOk result (λ r. seen_attributes r.items ≡ moved_to places.now.slots (seen_attributes v.now.attributes)) }
    ensures shaped { OnOk result (IsShaped v.now) }
{
    let mut attributes = Vec::with_capacity(alloc, v.attributes().len())?;
    for attribute in v.attributes() {
        push_at(alloc, &mut attributes, attribute, places)?;
    }
    Ok(attributes)
}

/// Appends an attribute at some places.
fn push_at(
    alloc: Global,
    attributes: &mut Vec<(Path, Column)>,
    attribute: &(Path, Column),
    places: &Column,
) -> Result<(), NoMemory>
    ensures { OnOk result (seen_attributes attributes.new.items
        ≡ seen_attributes attributes.old.items ++ moved_to places.now.slots ((attribute.now.0, attribute.now.1.slots) ∷ [])) }
{
    let path = attribute.0.copied(alloc)?;
    let column = gather(alloc, &attribute.1, places)?;
    attributes.push((path, column))?;
    Ok(())
}

/// The vector that a Bucket or a Partition makes.
pub(crate) fn rank_made(
    alloc: Global,
    made: &Made,
    kind: RankOperator,
    args: &RankArgs,
) -> Result<HeldVector, Stop>
    requires { CanRank (env_in made.now) args.now }
    ensures { Exact seen result
        (Ok (ranked kind (known ((env_in made.now) args.now.a)) (known ((env_in made.now) args.now.b)) args.now)) }
{
    match kind {
        RankOperator::Bucket => bucket_made(alloc, made, args),
        RankOperator::Partition => partition_made(alloc, made, args),
    }
}

/// The vector that Bucket makes.
fn bucket_made(alloc: Global, made: &Made, args: &RankArgs) -> Result<HeldVector, Stop>
    requires { CanRank (env_in made.now) args.now }
    ensures { Exact seen result
        (Ok (bucket (known ((env_in made.now) args.now.a)) (known ((env_in made.now) args.now.b)) args.now)) }
{
    let keys = attribute(made, &args.a, &args.key);
    let pivots = attribute(made, &args.b, &args.pivot);
    Ok(named(alloc, &args.out, buckets(alloc, keys, pivots)?)?)
}

/// The vector that Partition makes.
fn partition_made(alloc: Global, made: &Made, args: &RankArgs) -> Result<HeldVector, Stop>
    requires { CanRank (env_in made.now) args.now }
    ensures { Exact seen result
        (Ok (partition (known ((env_in made.now) args.now.a)) (known ((env_in made.now) args.now.b)) args.now)) }
{
    let keys = attribute(made, &args.a, &args.key);
    let pivots = attribute(made, &args.b, &args.pivot);
    Ok(named(alloc, &args.out, partitions(alloc, keys, pivots)?)?)
}
