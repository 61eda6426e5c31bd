//! Places beside what their first key has there, so that a sort reads it in place.
ghost use Rattle.std.specs.Prelude.{◌≡◌, ◌<◌, false, length, map, drop, slice_index_or, IfOk, IfSome};
ghost use Rattle.std.specs.List.{list_any};
ghost use Rattle.std.specs.Ordering.{is_lt};
ghost use Rattle.control_vectors.specs.Slots.{has_over, slots_in};
ghost use Rattle.sort_order.specs.Keyed.{first_slot, keyed_cmp, places_of, HaveFirst};
ghost use Rattle.sort_order.specs.Keys.{key_of, no_key};
ghost use Rattle.sort_order.specs.Orders.{comes_before, sorted_by};

use crate::ordering::{compare_from, key_slot};
use crate::{KeySource, NoMemory};
use control_vectors::Slot;
use std::alloc::Global;
use std::cmp::Ordering;

/// A place, and the number that its first key has there, in 64 bits: none where the key is empty.
#[derive(Clone, Copy)]
pub struct Keyed {
    pub number: i64,
    pub is_some: bool,
    pub place: u32,
}

/// The places sorted by their keys, ties in their order; none where a number of the first key doesn't fit 64 bits.
pub(crate) fn sorted_by_first<K: KeySource>(
    alloc: Global,
    keys: &K,
    places: &[u32],
) -> Result<Option<Vec<u32>>, NoMemory>
    requires { list_any (λ key. has_over key.cells) (K.keys keys.now) ≡ false }
    ensures { IfOk result (λ found. IfSome found (λ sorted. sorted.items
        ≡ sorted_by (comes_before (map key_of (K.keys keys.now))) places.now)) }
{
    if keys.count() == 0 {
        return Ok(None);
    }
    match keyed_places(alloc, keys, places)? {
        Some(keyed) => {
            let sorted = sorted_keyed(alloc, keys, keyed)?;
            Ok(Some(sorted))
        }
        None => Ok(None),
    }
}

/// The places with what the first key has there; none where a number doesn't fit 64 bits.
fn keyed_places<K: KeySource>(
    alloc: Global,
    keys: &K,
    places: &[u32],
) -> Result<Option<Vec<Keyed>>, NoMemory>
    requires some { 0 < length (K.keys keys.now) }
    requires clear { list_any (λ key. has_over key.cells) (K.keys keys.now) ≡ false }
    ensures places { IfOk result (λ found. IfSome found (λ keyed. places_of keyed.items ≡ places.now)) }
    ensures first { IfOk result (λ found. IfSome found (λ keyed.
        HaveFirst (slots_in (slice_index_or (K.keys keys.now) 0 no_key).cells) keyed.items)) }
{
    let mut keyed = Vec::with_capacity(alloc, places.len())?;
    for place in places {
        match keyed_at(key_slot(keys, 0, *place), *place) {
            Some(p) => keyed.push(p)?,
            None => return Ok(None),
        }
    }
    Ok(Some(keyed))
}

/// A place with a slot; none where its number doesn't fit 64 bits.
fn keyed_at(slot: Slot, place: u32) -> Option<Keyed>
    ensures slot { IfSome result (λ p. first_slot p ≡ slot) }
    ensures place { IfSome result (λ p. p.place ≡ place) }
{
    match slot {
        Some(x) => match i64::try_from(x) {
            Ok(number) => Some(Keyed {
                number,
                is_some: true,
                place,
            }),
            Err(_) => None,
        },
        None => Some(Keyed {
            number: 0,
            is_some: false,
            place,
        }),
    }
}

/// The places sorted by what the first key has there, then by the other keys.
fn sorted_keyed<K: KeySource>(
    alloc: Global,
    keys: &K,
    keyed: Vec<Keyed>,
) -> Result<Vec<u32>, NoMemory>
    requires some { 0 < length (K.keys keys.now) }
    requires clear { list_any (λ key. has_over key.cells) (K.keys keys.now) ≡ false }
    ensures { IfOk result (λ sorted. sorted.items ≡ places_of (sorted_by
        (λ p q. is_lt (keyed_cmp (slice_index_or (K.keys keys.now) 0 no_key).descending (drop 1 (map key_of (K.keys keys.now))) p q)) keyed.items)) }
{
    let mut sorted = keyed;
    let descending = keys.descending(0);
    sorted.sort_by(|p, q| compare_keyed(keys, descending, p, q))?;
    places_in(alloc, sorted.as_slice())
}

/// Two places by what the first key has there, then by the other keys.
fn compare_keyed<K: KeySource>(keys: &K, descending: bool, p: &Keyed, q: &Keyed) -> Ordering
    requires some { 0 < length (K.keys keys.now) }
    requires clear { list_any (λ key. has_over key.cells) (K.keys keys.now) ≡ false }
    ensures { result ≡ keyed_cmp descending (drop 1 (map key_of (K.keys keys.now))) p.now q.now }
{
    let by_first = if descending {
        slot_of(q).cmp(&slot_of(p))
    } else {
        slot_of(p).cmp(&slot_of(q))
    };
    if by_first != Ordering::Equal {
        return by_first;
    }
    compare_from(keys, 1, p.place, q.place)
}

/// What the first key has at a place.
#[inline]
fn slot_of(p: &Keyed) -> Option<i64>
    ensures { result ≡ first_slot p.now }
{
    if p.is_some { Some(p.number) } else { None }
}

/// The places alone.
fn places_in(alloc: Global, keyed: &[Keyed]) -> Result<Vec<u32>, NoMemory>
    ensures { IfOk result (λ places. places.items ≡ places_of keyed.now) }
{
    let mut places = Vec::with_capacity(alloc, keyed.len())?;
    for p in keyed {
        places.push(p.place)?;
    }
    Ok(places)
}
