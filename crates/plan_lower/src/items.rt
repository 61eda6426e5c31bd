//! The items of a query for each row or group, in order.

ghost use Rattle.std.specs.Prelude.{◌≡◌, ◌+◌, IfOk, OnOk, map};
ghost use Rattle.std.specs.List.{enumerate_from};
ghost use Rattle.program_writers.specs.Codes.{Adds};
ghost use Rattle.program_writers.specs.Writers.{through};
ghost use Rattle.plan_programs.specs.Items as spec;

use crate::paths::{item_path, order_path};
use dict_codes::Dictionary;
use io_edge::{Name, NoMemory};
use program_writers::Writer;
use program_writers::operators::{at_places, order, persist, project, with_attribute};
use program_writers::paths::{mark, out};
use programs::{OrderKeys, OrderPath};
use row_lower::sites::{Base, value_of};
use std::alloc::Global;
use typed_trees::{KeyRef, OrderKey, TypedExpr};

/// The mark alone.
fn mark_alone(alloc: Global, w: &mut Writer, word: &str, vector: &Name) -> Result<Name, NoMemory>
    ensures { IfOk result (λ n. Adds (spec.mark_alone word.now vector.now) w.old w.new n) }
{
    let mark = mark(alloc)?;
    let op = project(alloc, vector, &mark, &mark)?;
    w.make(word, op)
}

/// An item more, counted from 1.
fn item_of(
    alloc: Global,
    w: &mut Writer,
    dictionary: &Dictionary,
    b: &Base,
    items: &Name,
    k: usize,
    e: &TypedExpr,
) -> Result<Name, NoMemory>
    ensures { IfOk result (λ n. Adds (spec.item_of dictionary.now b.now items.now (k, e.now)) w.old w.new n) }
{
    let value = value_of(alloc, w, dictionary, "item", b, e)?;
    let p = item_path(alloc, k)?;
    let out = out(alloc)?;
    let op = with_attribute(alloc, items, &p, &value, &out)?;
    w.make("items", op)
}

/// The items, one by one.
fn items_by(
    alloc: Global,
    w: &mut Writer,
    dictionary: &Dictionary,
    b: &Base,
    vector: Name,
    items: &[TypedExpr],
) -> Result<Name, NoMemory>
    ensures { IfOk result (λ n. Adds (through (spec.item_of dictionary.now b.now) vector (enumerate_from 1 items.now)) w.old w.new n) }
{
    let mut vector = vector;
    for k in 0..items.len() {
        vector = item_of(alloc, w, dictionary, b, &vector, k + 1, &items[k])?;
    }
    Ok(vector)
}

/// The items alone, with the mark.
fn items_of(
    alloc: Global,
    w: &mut Writer,
    dictionary: &Dictionary,
    b: &Base,
    items: &[TypedExpr],
) -> Result<Name, NoMemory>
    ensures { IfOk result (λ n. Adds (spec.items_of dictionary.now b.now items.now) w.old w.new n) }
{
    let vector = mark_alone(alloc, w, "items", &b.vector)?;
    items_by(alloc, w, dictionary, b, vector, items)
}

/// A key: an item, or a column.
fn key_of(
    alloc: Global,
    w: &mut Writer,
    b: &Base,
    items: &Name,
    keys: &Name,
    j: usize,
    key: KeyRef,
) -> Result<Name, NoMemory>
    ensures { IfOk result (λ n. Adds (spec.key_of b.now items.now keys.now j key) w.old w.new n) }
{
    let p = order_path(alloc, j)?;
    match key {
        KeyRef::Item(n) => {
            let q = item_path(alloc, n as usize + 1)?;
            let op = with_attribute(alloc, keys, &p, items, &q)?;
            w.make("keys", op)
        }
        KeyRef::Column(c) => {
            let q = b.path_in(alloc, c)?;
            let op = with_attribute(alloc, keys, &p, &b.vector, &q)?;
            w.make("keys", op)
        }
    }
}

/// A key by its number.
fn numbered_key(
    alloc: Global,
    w: &mut Writer,
    b: &Base,
    items: &Name,
    keys: &Name,
    j: usize,
    key: OrderKey,
) -> Result<Name, NoMemory>
    ensures { IfOk result (λ n. Adds (spec.numbered_key b.now items.now keys.now (j, key)) w.old w.new n) }
{
    key_of(alloc, w, b, items, keys, j, key.key)
}

/// The keys, one by one.
fn keys_by(
    alloc: Global,
    w: &mut Writer,
    b: &Base,
    items: &Name,
    vector: Name,
    keys: &[OrderKey],
) -> Result<Name, NoMemory>
    ensures { IfOk result (λ n. Adds (through (spec.numbered_key b.now items.now) vector (enumerate_from 0 keys.now)) w.old w.new n) }
{
    let mut vector = vector;
    for j in 0..keys.len() {
        vector = numbered_key(alloc, w, b, items, &vector, j, keys[j])?;
    }
    Ok(vector)
}

/// The keys, with the mark.
fn keys_of(
    alloc: Global,
    w: &mut Writer,
    b: &Base,
    items: &Name,
    keys: &[OrderKey],
) -> Result<Name, NoMemory>
    ensures { IfOk result (λ n. Adds (spec.keys_of b.now items.now keys.now) w.old w.new n) }
{
    let vector = mark_alone(alloc, w, "keys", &b.vector)?;
    keys_by(alloc, w, b, items, vector, keys)
}

/// The keys' paths, each ascending or descending.
fn order_keys(alloc: Global, keys: &[OrderKey]) -> Result<OrderKeys, NoMemory>
    ensures { IfOk result (λ paths. paths ≡ map spec.key_by (enumerate_from 0 keys.now)) }
{
    let mut paths = Vec::with_capacity(alloc, keys.len())?;
    for j in 0..keys.len() {
        paths.push(OrderPath {
            path: order_path(alloc, j)?,
            descending: keys[j].descending,
        })?;
    }
    Ok(OrderKeys::new(paths))
}

/// The items in the order of the keys.
fn in_order(
    alloc: Global,
    w: &mut Writer,
    b: &Base,
    items: &Name,
    keys: &[OrderKey],
) -> Result<Name, NoMemory>
    ensures { IfOk result (λ n. Adds (spec.in_order b.now items.now keys.now) w.old w.new n) }
{
    let by = keys_of(alloc, w, b, items, keys)?;
    let mark = mark(alloc)?;
    let op = order(alloc, &by, &mark, order_keys(alloc, keys)?)?;
    let places = w.make("order", op)?;
    let op = at_places(alloc, items, &places)?;
    w.make("answer", op)
}

/// The one result.
pub fn answered(
    alloc: Global,
    w: &mut Writer,
    dictionary: &Dictionary,
    b: &Base,
    items: &[TypedExpr],
    keys: &[OrderKey],
) -> Result<(), NoMemory>
    ensures { OnOk result (Adds (spec.answered dictionary.now b.now items.now keys.now) w.old w.new (record {})) }
{
    let vector = items_of(alloc, w, dictionary, b, items)?;
    let answer = in_order(alloc, w, b, &vector, keys)?;
    let op = persist(alloc, &answer)?;
    w.show("answer", op)
}
