//! The keys of ORDER BY.

ghost use Rattle.std.specs.Prelude.{◌≡◌, ◌≤◌, [], length};
ghost use Rattle.query_types.specs.Names.{IsNarrow, seen};
ghost use Rattle.query_types.specs.Ordering as spec;
ghost use Rattle.query_types.specs.Outcomes.{Gives};

use crate::names::column;
use crate::outcome::refusal;
use crate::refusal::{TypeKind, TypeRefusal};
use crate::scope::Scope;
use io_edge::Name;
use query_trees::{ColumnName, Direction, SortBy, SortKey};
use sql_read::Listing;
use std::alloc::Global;
use typed_trees::{KeyRef, OrderKey};

fn by_place(at: u32, items: usize, place: u128) -> Result<KeyRef, TypeRefusal>
    requires { items ≤ 64 }
    ensures { Gives (spec.by_place at items place) result }
{
    if 0 < place && place <= items as u128 {
        Ok(KeyRef::Item((place - 1) as u32))
    } else {
        Err(refusal(TypeKind::UnknownColumn, at))
    }
}

#[tactic(auto, unfolding(crate::specs::Ordering::by_column))]
fn by_column(scope: &Scope<'_>, c: &ColumnName) -> Result<KeyRef, TypeRefusal>
    requires narrow { IsNarrow scope.now.defs.now }
    requires few { length scope.now.tables.now ≤ 8 }
    ensures { Gives (spec.by_column (seen scope.now) c.now) result }
{
    let found = column(scope, c)?;
    Ok(KeyRef::Column(found.column))
}

/// The one item of this output name, or else a column of FROM.
#[tactic(auto, unfolding(crate::specs::Ordering::by_bare))]
fn by_bare(scope: &Scope<'_>, names: &[Name], c: &ColumnName) -> Result<KeyRef, TypeRefusal>
    requires narrow { IsNarrow scope.now.defs.now }
    requires few { length scope.now.tables.now ≤ 8 }
    requires short { length names.now ≤ 64 }
    ensures { Gives (spec.by_bare (seen scope.now) names.now c.now) result }
{
    let mut only = None;
    for (k, name) in names.iter().enumerate() {
        if name.text() == c.name.text() {
            if only.is_some() {
                return Err(refusal(TypeKind::Ambiguous, c.at));
            }
            only = Some(k as u32);
        }
    }
    match only {
        Some(k) => Ok(KeyRef::Item(k)),
        None => by_column(scope, c),
    }
}

fn key_ref(scope: &Scope<'_>, names: &[Name], k: &SortKey) -> Result<KeyRef, TypeRefusal>
    requires narrow { IsNarrow scope.now.defs.now }
    requires few { length scope.now.tables.now ≤ 8 }
    requires short { length names.now ≤ 64 }
    ensures { Gives (spec.key_ref (seen scope.now) names.now k.now.at k.now.by) result }
{
    match &k.by {
        SortBy::Place(place) => by_place(k.at, names.len(), *place),
        SortBy::Column(c) => match c.table {
            None => by_bare(scope, names, c),
            Some(_) => by_column(scope, c),
        },
    }
}

fn is_descending(direction: Direction) -> bool
    ensures { result ≡ spec.is_descending direction }
{
    match direction {
        Direction::Ascending => false,
        Direction::Descending => true,
    }
}

/// The keys of ORDER BY, over the output names of the items.
pub fn keys(
    alloc: Global,
    scope: &Scope<'_>,
    names: &[Name],
    order: &[SortKey],
) -> Result<Listing<OrderKey>, TypeRefusal>
    requires narrow { IsNarrow scope.now.defs.now }
    requires few { length scope.now.tables.now ≤ 8 }
    requires short { length names.now ≤ 64 }
    ensures { Gives (spec.keys (seen scope.now) names.now [] order.now) result }
{
    let mut keys = Listing::new(alloc);
    for k in order {
        if keys.len() >= 8 {
            return Err(refusal(TypeKind::TooManyKeys, k.at));
        }
        let key = key_ref(scope, names, k)?;
        keys.push(OrderKey {
            key,
            descending: is_descending(k.direction),
        })?;
    }
    Ok(keys)
}
