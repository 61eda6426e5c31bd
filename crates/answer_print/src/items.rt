//! The items of a query, each with the column that holds its values.

ghost use Rattle.std.specs.Prelude.{◌≡◌, ◌+◌, ◌<◌, ◌≤◌, ◌^◌, ℕ, All, length, IfOk};
ghost use Rattle.programs.specs.Vectors.{seen, slots_of};
ghost use Rattle.typed_trees.specs.Scales.{scale_of};
ghost use Rattle.typed_trees.specs.Types.{typed_as};
ghost use Rattle.typed_values.specs.Narrow.{counted};
ghost use Rattle.answer_print.specs.Conditions.{AreItems, HasPath};
ghost use Rattle.answer_print.specs.Held.{columns_in, item_column, item_path};
ghost use Rattle.answer_print.specs.Kinds as kinds;
ghost use Rattle.answer_print.specs.Shown.{seen_item, seen_items};

use crate::NoMemory;
use crate::kinds::{aggregate_kinds, kind_in};
use crate::scales::scale;
use itoa::Buffer;
use std::alloc::Global;
use struct_vectors::{Column, StructVector};
use typed_trees::{Kind, TypedExpr, TypedQuery};

/// An item: where its values stand, and their type.
#[derive(Drop)]
pub struct Item<'a> {
    pub column: &'a Column,
    pub kind: Kind,
    pub scale: u32,
}

/// The items of a query, over the vector that holds its answer.
pub fn items_of<'a>(
    alloc: Global,
    q: &TypedQuery,
    v: &'a StructVector,
) -> Result<Vec<Item<'a>>, NoMemory>
    requires items { AreItems q.now }
    requires paths { (k : ℕ) → k < length q.now.items → HasPath (seen v.now) (item_path (k + 1)) }
    ensures columns { IfOk result (λ items. seen_items items.items ≡ columns_in q.now (seen v.now)) }
    ensures long { IfOk result (λ items. All (λ it. length it.column.now.slots ≡ v.now.length) items.items) }
{
    let kinds = aggregate_kinds(alloc, q.aggregates.as_slice())?;
    let mut items = Vec::with_capacity(alloc, q.items.len())?;
    for k in 0..q.items.len() {
        let e = &q.items.as_slice()[k];
        items.push(item_of(alloc, e, kinds.as_slice(), v, k + 1)?)?;
    }
    Ok(items)
}

/// The item at a place, from 1.
fn item_of<'a>(
    alloc: Global,
    e: &TypedExpr,
    aggregates: &[Kind],
    v: &'a StructVector,
    place: usize,
) -> Result<Item<'a>, NoMemory>
    requires { HasPath (seen v.now) (item_path place) }
    ensures column { IfOk result (λ it. it.column.now.slots ≡ slots_of (seen v.now).attributes (item_path place)) }
    ensures long { IfOk result (λ it. length it.column.now.slots ≡ v.now.length) }
    ensures kind { IfOk result (λ it. it.kind ≡ kinds.kind_in aggregates.now e.now) }
    ensures scale { IfOk result (λ it. it.scale ≡ counted (scale_of e.now)) }
{
    let mut path = String::from_str(alloc, ".c")?;
    path.push_str(Buffer::new().format(place))?;
    Ok(Item {
        column: attribute(v, path.as_str()),
        kind: kind_in(e, aggregates),
        scale: scale(e),
    })
}

/// The column at a path that the vector has.
pub fn attribute<'a>(v: &'a StructVector, path: &str) -> &'a Column
    requires { HasPath (seen v.now) path.now }
    ensures slots { result.now.slots ≡ slots_of (seen v.now).attributes path.now }
    ensures len { length result.now.slots ≡ v.now.length }
    ensures short { v.now.length ≤ 2 ^ 22 }
{
    match v.column_at(path) {
        Some(column) => column,
        None => unreachable!(),
    }
}
