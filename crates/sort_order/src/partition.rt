//! Partition: where each key goes when the buckets stand one after another.
ghost use Rattle.std.specs.Prelude.{◌≡◌, ◌++◌, ◌<◌, ◌^◌, length, map, pos, OnOk, IfOk};
ghost use Rattle.std.specs.List.Sorted.{IsPermutation, IsSorted};
ghost use Rattle.std.specs.Ordering.{int_cmp, is_lt};
ghost use Rattle.sort_order.specs.Answers.{Buckets, Sorts};
ghost use Rattle.sort_order.specs.Buckets.{bucket, not_above, partition_slots, partitioned_cells};
ghost use Rattle.sort_order.specs.Pairs.{lower_pairs, one_pair, pair_cmp, pairs_from, rank_slot};

use crate::{NoMemory, OrderRefusal};
use control_vectors::{Over, Slot, SlotSource};
use std::alloc::Global;

/// For each nonempty key how many have a lower bucket, plus how many earlier ones have the same; empty
/// for an empty key. A key's bucket is the number of pivots that are not above it.
pub fn partition_places<K: SlotSource>(
    alloc: Global,
    key: &K,
    pivots: &[i128],
) -> Result<Vec<Slot>, OrderRefusal>
    requires { IsSorted int_cmp pivots.now }
    ensures { Sorts result (partitioned_cells pivots.now (K.cells key.now)) }
{
    let buckets = match buckets_of(alloc, key, pivots) {
        Ok(buckets) => buckets,
        Err(refusal) => return Err(refusal),
    };
    match places_of_buckets(alloc, buckets.as_slice()) {
        Ok(slots) => Ok(slots),
        Err(_) => Err(OrderRefusal::NoMemory),
    }
}

/// The bucket of each key.
fn buckets_of<K: SlotSource>(
    alloc: Global,
    key: &K,
    pivots: &[i128],
) -> Result<Vec<Slot>, OrderRefusal>
    requires { IsSorted int_cmp pivots.now }
    ensures { Buckets result pivots.now (K.cells key.now) }
{
    let n = key.len();
    let mut buckets = match Vec::with_capacity(alloc, n as usize) {
        Ok(buckets) => buckets,
        Err(_) => return Err(OrderRefusal::NoMemory),
    };
    for i in 0..n {
        match key.slot(i) {
            Ok(s) => match buckets.push(bucket_of(pivots, s)) {
                Ok(()) => {}
                Err(_) => return Err(OrderRefusal::NoMemory),
            },
            Err(Over) => return Err(OrderRefusal::Over),
        }
    }
    Ok(buckets)
}

/// How many of the pivots are not above a key; empty for an empty key.
pub fn bucket_of(pivots: &[i128], key: Slot) -> Slot
    requires { IsSorted int_cmp pivots.now }
    ensures { result ≡ bucket pivots.now key }
{
    match key {
        Some(x) => Some(count_not_above(pivots, x) as i128),
        None => None,
    }
}

/// How many of the pivots are not above a number.
fn count_not_above(pivots: &[i128], x: i128) -> usize
    requires { IsSorted int_cmp pivots.now }
    ensures { result ≡ not_above pivots.now x }
{
    pivots.partition_point(|p| *p <= x)
}

/// Where the key of each bucket goes: where its pair of bucket and place stands among the sorted pairs.
fn places_of_buckets(alloc: Global, buckets: &[Slot]) -> Result<Vec<Slot>, NoMemory>
    requires { length buckets.now < 2 ^ 32 }
    ensures { IfOk result (λ slots. slots.items ≡ partition_slots buckets.now) }
{
    let pairs = sorted_pairs(alloc, buckets)?;
    let mut slots = Vec::with_capacity(alloc, buckets.len())?;
    for (i, b) in buckets.iter().enumerate() {
        slots.push(rank_of(pairs.as_slice(), *b, i as u32))?;
    }
    Ok(slots)
}

/// The pairs of a nonempty bucket and its place, ascending.
fn sorted_pairs(alloc: Global, buckets: &[Slot]) -> Result<Vec<(i128, u32)>, NoMemory>
    requires { length buckets.now < 2 ^ 32 }
    ensures same { IfOk result (λ pairs. IsPermutation (pairs_from 0 buckets.now) pairs.items) }
    ensures sorted { IfOk result (λ pairs. IsSorted pair_cmp pairs.items) }
{
    let mut pairs = pairs_of(alloc, buckets)?;
    pairs.sort_unstable();
    Ok(pairs)
}

/// The pairs of a nonempty bucket and its place, in the order of the places.
fn pairs_of(alloc: Global, buckets: &[Slot]) -> Result<Vec<(i128, u32)>, NoMemory>
    requires { length buckets.now < 2 ^ 32 }
    ensures { IfOk result (λ pairs. pairs.items ≡ pairs_from 0 buckets.now) }
{
    let mut pairs = Vec::with_capacity(alloc, buckets.len())?;
    for (i, b) in buckets.iter().enumerate() {
        push_pair(&mut pairs, *b, i as u32)?;
    }
    Ok(pairs)
}

/// Appends a bucket with its place, if it is not empty.
fn push_pair(pairs: &mut Vec<(i128, u32)>, b: Slot, i: u32) -> Result<(), NoMemory>
    ensures { OnOk result (pairs.new.items ≡ pairs.old.items ++ one_pair b i) }
{
    if let Some(b) = b {
        pairs.push((b, i))?;
    }
    Ok(())
}

/// How many of the sorted pairs are lower than a bucket with its place; empty for an empty bucket.
fn rank_of(pairs: &[(i128, u32)], b: Slot, i: u32) -> Slot
    requires { IsSorted pair_cmp pairs.now }
    ensures { result ≡ rank_slot pairs.now b i }
{
    match b {
        Some(b) => Some(count_lower(pairs, b, i) as i128),
        None => None,
    }
}

/// How many of the sorted pairs are lower than another.
fn count_lower(pairs: &[(i128, u32)], b: i128, i: u32) -> usize
    requires { IsSorted pair_cmp pairs.now }
    ensures { result ≡ lower_pairs pairs.now b i }
{
    pairs.partition_point(|p| is_lower(p.0, p.1, b, i))
}

/// Whether one pair is lower than another: by the bucket, then by the place.
fn is_lower(c: i128, j: u32, b: i128, i: u32) -> bool
    ensures { result ≡ is_lt (pair_cmp (c, j) (b, i)) }
{
    c < b || (c == b && j < i)
}
