//! Order: the marked places of a vector, sorted by keys.

ghost use Rattle.std.specs.Prelude.{◌≡◌, ◌≤◌, ◌^◌, All, length, map, IfOk, Ok};
ghost use Rattle.slot_columns.specs.Stops.{Exact};
ghost use Rattle.programs.specs.Vectors.{known, seen};
ghost use Rattle.voodoo_ops.specs.Envs.{env_in};
ghost use Rattle.voodoo_ops.specs.Moves.{order, sort_key};
ghost use Rattle.voodoo_ops.specs.Reading.{HasAttribute, HasKeys, IsNamed};
ghost use Rattle.voodoo_ops.specs.Sorting.{cells_of_key, cells_of_keys};

use crate::NoMemory;
use crate::made::Made;
use crate::reading::attribute;
use crate::single::named;
use control_vectors::{Over, Slot};
use held_vectors::HeldVector;
use io_edge::Name;
use key_paths::Path;
use programs::OrderKeys;
use slot_columns::{Stop, slots_column};
use sort_order::{KeySource, OrderRefusal, order};
use std::alloc::Global;
use struct_vectors::Column;

/// A key of an order.
#[derive(Drop)]
pub(crate) struct OrderKey<'a> {
    column: &'a Column,
    descending: bool,
}

/// The keys of an order over the attributes of one vector.
#[derive(Drop)]
struct VectorKeys<'a> {
    keys: Vec<OrderKey<'a>>,
    len: u32,
    ghost few: { length keys.items ≤ 16 },
    ghost short: { len ≤ 2 ^ 22 },
    ghost long: { All (λ k. length k.column.now.slots ≡ len) keys.items },
}

impl KeySource for VectorKeys<'_> {
    ghost use Rattle.voodoo_ops.specs.Sorting.{cells_of_keys};

    ghost keys = { λ s. cells_of_keys s.keys.items };

    ghost places = { λ s. s.len };

    fn count(&self) -> u32 {
        self.keys.len() as u32
    }

    fn len(&self) -> u32 {
        self.len
    }

    fn descending(&self, k: u32) -> bool {
        self.keys[k as usize].descending
    }

    fn slot(&self, k: u32, i: u32) -> Result<Slot, Over> {
        Ok(self.keys[k as usize].column.get(i))
    }
}

/// The vector that Order makes.
pub(crate) fn order_made(
    alloc: Global,
    made: &Made,
    a: &Name,
    mark: &Path,
    out: &Path,
    keys: &OrderKeys,
) -> Result<HeldVector, Stop>
    requires mark { HasAttribute (env_in made.now) a.now mark.now }
    requires keys { HasKeys (env_in made.now) a.now keys.now }
    requires few { length keys.now ≤ 16 }
    requires named { IsNamed out.now }
    ensures { Exact seen result (Ok (order (known ((env_in made.now) a.now)) mark.now out.now keys.now)) }
{
    let marks = attribute(made, a, mark);
    let source = VectorKeys {
        keys: order_keys(alloc, made, a, keys)?,
        len: marks.len(),
    };
    match order(alloc, marks, &source) {
        Ok(places) => Ok(named(alloc, out, slots_column(alloc, places.as_slice())?)?),
        Err(OrderRefusal::NoMemory) => Err(Stop::NoMemory),
        Err(OrderRefusal::Over) => unreachable!(),
    }
}

/// The columns of the keys, each with its direction.
fn order_keys<'a>(
    alloc: Global,
    made: &'a Made,
    a: &Name,
    keys: &OrderKeys,
) -> Result<Vec<OrderKey<'a>>, NoMemory>
    requires { HasKeys (env_in made.now) a.now keys.now }
    ensures keys { IfOk result (λ v. cells_of_keys v.items ≡ map cells_of_key (map (sort_key (known ((env_in made.now) a.now))) keys.now)) }
    ensures long { IfOk result (λ v. All (λ k. length k.column.now.slots ≡ (known ((env_in made.now) a.now)).len) v.items) }
{
    let mut columns = Vec::with_capacity(alloc, keys.keys().len())?;
    for k in 0..keys.keys().len() {
        columns.push(OrderKey {
            column: attribute(made, a, &keys.keys()[k].path),
            descending: keys.keys()[k].descending,
        })?;
    }
    Ok(columns)
}
