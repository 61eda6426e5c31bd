//! Order: the marked places by their keys.
ghost use Rattle.std.specs.Prelude.{◌≡◌, ◌++◌, ◌<◌, ◌≤◌, ◌^◌, false, drop, length, map, OnOk, IfOk, slice_index_or};
ghost use Rattle.std.specs.List.{list_any};
ghost use Rattle.control_vectors.specs.Slots.{has_over, slots_in};
ghost use Rattle.sort_order.specs.Answers.{Clear, Marks, Sorts};
ghost use Rattle.sort_order.specs.Keys.{key_of, no_key};
ghost use Rattle.sort_order.specs.Orders.{comes_before, directed, keys_cmp, one_place, ordered_cells, padded, slot_at, sorted_by};

use crate::keyed::sorted_by_first;
use crate::{KeySource, NoMemory, OrderRefusal};
use control_vectors::{Over, Slot, SlotSource};
use std::alloc::Global;
use std::cmp::Ordering;

/// The places whose mark is not empty, sorted stably by the keys, then empty slots. Empty slots are
/// lowest, and a descending key turns its order round and leaves ties.
pub fn order<S: SlotSource, K: KeySource>(
    alloc: Global,
    mark: &S,
    keys: &K,
) -> Result<Vec<Slot>, OrderRefusal>
    requires { K.places keys.now ≡ length (S.cells mark.now) }
    ensures { Sorts result (ordered_cells (S.cells mark.now) (K.keys keys.now)) }
{
    let places = match marked_places(alloc, mark) {
        Ok(places) => places,
        Err(refusal) => return Err(refusal),
    };
    match check_keys(keys) {
        Ok(()) => {}
        Err(Over) => return Err(OrderRefusal::Over),
    }
    match places_in_order(alloc, keys, places, mark.len()) {
        Ok(slots) => Ok(slots),
        Err(_) => Err(OrderRefusal::NoMemory),
    }
}

/// The places whose mark is not empty, in order.
fn marked_places<S: SlotSource>(alloc: Global, mark: &S) -> Result<Vec<u32>, OrderRefusal>
    ensures { Marks result (S.cells mark.now) }
{
    let n = mark.len();
    let mut places = match Vec::with_capacity(alloc, n as usize) {
        Ok(places) => places,
        Err(_) => return Err(OrderRefusal::NoMemory),
    };
    for i in 0..n {
        match mark.slot(i) {
            Ok(s) => match push_marked(&mut places, s, i) {
                Ok(()) => {}
                Err(_) => return Err(OrderRefusal::NoMemory),
            },
            Err(Over) => return Err(OrderRefusal::Over),
        }
    }
    Ok(places)
}

/// Appends a place where its slot is not empty.
fn push_marked(places: &mut Vec<u32>, s: Slot, i: u32) -> Result<(), NoMemory>
    ensures { OnOk result (places.new.items ≡ places.old.items ++ one_place s i) }
{
    if s.is_some() {
        places.push(i)?;
    }
    Ok(())
}

/// Whether no key is `Over` anywhere.
fn check_keys<K: KeySource>(keys: &K) -> Result<(), Over>
    ensures { Clear result (list_any (λ key. has_over key.cells) (K.keys keys.now)) }
{
    for k in 0..keys.count() {
        match check_key(keys, k) {
            Ok(()) => {}
            Err(Over) => return Err(Over),
        }
    }
    Ok(())
}

/// Whether a key is `Over` nowhere.
fn check_key<K: KeySource>(keys: &K, k: u32) -> Result<(), Over>
    requires { k < length (K.keys keys.now) }
    ensures { Clear result (has_over (slice_index_or (K.keys keys.now) k no_key).cells) }
{
    for i in 0..keys.len() {
        match keys.slot(k, i) {
            Ok(_) => {}
            Err(Over) => return Err(Over),
        }
    }
    Ok(())
}

/// The places sorted by their keys, as slots, and empty slots behind them.
fn places_in_order<K: KeySource>(
    alloc: Global,
    keys: &K,
    places: Vec<u32>,
    n: u32,
) -> Result<Vec<Slot>, NoMemory>
    requires { list_any (λ key. has_over key.cells) (K.keys keys.now) ≡ false }
    ensures { IfOk result (λ slots. slots.items
        ≡ padded n (sorted_by (comes_before (map key_of (K.keys keys.now))) places.items)) }
{
    let sorted = sorted_places(alloc, keys, places)?;
    padded_slots(alloc, sorted.as_slice(), n)
}

/// The places sorted by their keys; ties keep their order.
fn sorted_places<K: KeySource>(
    alloc: Global,
    keys: &K,
    places: Vec<u32>,
) -> Result<Vec<u32>, NoMemory>
    requires { list_any (λ key. has_over key.cells) (K.keys keys.now) ≡ false }
    ensures { IfOk result (λ sorted. sorted.items
        ≡ sorted_by (comes_before (map key_of (K.keys keys.now))) places.items) }
{
    match sorted_by_first(alloc, keys, places.as_slice())? {
        Some(sorted) => Ok(sorted),
        None => sorted_by_all(keys, places),
    }
}

/// The same, with each key asked for at each comparison.
fn sorted_by_all<K: KeySource>(keys: &K, places: Vec<u32>) -> Result<Vec<u32>, NoMemory>
    requires { list_any (λ key. has_over key.cells) (K.keys keys.now) ≡ false }
    ensures { IfOk result (λ sorted. sorted.items
        ≡ sorted_by (comes_before (map key_of (K.keys keys.now))) places.items) }
{
    let mut sorted = places;
    sorted.sort_by(|i, j| compare_from(keys, 0, *i, *j))?;
    Ok(sorted)
}

/// Two places by the keys from one on: the first key that tells them apart decides.
pub(crate) fn compare_from<K: KeySource>(keys: &K, from: u32, i: u32, j: u32) -> Ordering
    requires clear { list_any (λ key. has_over key.cells) (K.keys keys.now) ≡ false }
    requires within { from ≤ length (K.keys keys.now) }
    ensures { result ≡ keys_cmp (drop from (map key_of (K.keys keys.now))) i j }
{
    for k in from..keys.count() {
        let by_key = compare_by(keys, k, i, j);
        if by_key != Ordering::Equal {
            return by_key;
        }
    }
    Ordering::Equal
}

/// Two places by one key.
fn compare_by<K: KeySource>(keys: &K, k: u32, i: u32, j: u32) -> Ordering
    requires key { k < length (K.keys keys.now) }
    requires clear { list_any (λ key. has_over key.cells) (K.keys keys.now) ≡ false }
    ensures { let key = slice_index_or (K.keys keys.now) k no_key in
        result ≡ directed key.descending (slot_at (slots_in key.cells) i) (slot_at (slots_in key.cells) j) }
{
    let x = key_slot(keys, k, i);
    let y = key_slot(keys, k, j);
    if keys.descending(k) {
        y.cmp(&x)
    } else {
        x.cmp(&y)
    }
}

/// What a key has at a place: empty past the end.
pub(crate) fn key_slot<K: KeySource>(keys: &K, k: u32, i: u32) -> Slot
    requires key { k < length (K.keys keys.now) }
    requires clear { list_any (λ key. has_over key.cells) (K.keys keys.now) ≡ false }
    ensures { result ≡ slot_at (slots_in (slice_index_or (K.keys keys.now) k no_key).cells) i }
{
    if i >= keys.len() {
        return None;
    }
    match keys.slot(k, i) {
        Ok(s) => s,
        Err(Over) => None,
    }
}

/// Places as slots, followed by empty ones up to `n`.
fn padded_slots(alloc: Global, places: &[u32], n: u32) -> Result<Vec<Slot>, NoMemory>
    ensures { IfOk result (λ slots. slots.items ≡ padded n places.now) }
{
    let mut slots = Vec::with_capacity(alloc, n as usize)?;
    for place in places {
        slots.push(Some(i128::from(*place)))?;
    }
    for k in places.len()..n as usize {
        slots.push(None)?;
    }
    Ok(slots)
}
