//! The select list.

ghost use Rattle.std.specs.Prelude.{◌≡◌, ◌≤◌, ◌<◌, ◌+◌, ◌∷◌, length, decimal, Ok, IfOk};
ghost use Rattle.std.specs.Option.{option_copied};
ghost use Rattle.query_types.specs.Names.{IsNarrow, seen};
ghost use Rattle.query_types.specs.Items as spec;
ghost use Rattle.query_types.specs.Outcomes.{Gives, Collects};

use crate::expr::{column_alone, expr};
use crate::kinds::is_truth;
use crate::names::standing;
use crate::outcome::refusal;
use crate::refusal::{TypeKind, TypeRefusal};
use crate::scope::{Found, Scope};
use crate::stars::{Starred, every_column};
use crate::typing::Typed;
use io_edge::Name;
use query_trees::{Alias, ColumnName, SelectItem, SelectList};
use sql_read::Listing;
use std::alloc::Global;
use typed_trees::{Aggregate, Role, TypedExpr};

/// The items so far, and their output names.
pub struct Shown {
    pub items: Listing<TypedExpr>,
    pub names: Listing<Name>,
}

impl Drop for Shown {
    fn drop(self) {
        let Shown { items: _, names: _ } = self;
    }
}

impl Shown {
    /// The items and the names, to be taken apart.
    pub fn into_parts(self) -> (Listing<TypedExpr>, Listing<Name>)
        ensures { result ≡ (self.items, self.names) }
    {
        let Shown { items, names } = self;
        (items, names)
    }
}

fn nothing_shown(alloc: Global) -> Shown
    ensures { result ≡ spec.nothing_shown }
{
    Shown {
        items: Listing::new(alloc),
        names: Listing::new(alloc),
    }
}

fn with_item(shown: Shown, value: TypedExpr, name: Name) -> Result<Shown, TypeRefusal>
    requires room { length shown.items < 64 }
    requires short { spec.IsShort shown }
    ensures given { Gives (Ok (spec.with_item shown value name)) result }
    ensures short { IfOk result spec.IsShort }
{
    let (mut items, mut names) = shown.into_parts();
    items.push(value)?;
    names.push(name)?;
    Ok(Shown { items, names })
}

fn is_full(shown: &Shown) -> bool
    ensures { result ≡ spec.is_full shown.now }
{
    shown.items.len() >= 64
}

#[tactic(auto, unfolding(crate::specs::Items::star_item))]
fn star_item(
    alloc: Global,
    scope: &Scope<'_>,
    at: u32,
    shown: Shown,
    f: &Starred,
) -> Result<Shown, TypeRefusal>
    requires { spec.IsShort shown }
    ensures given { Gives (spec.star_item (seen scope.now) at shown f.now) result }
    ensures short { IfOk result spec.IsShort }
{
    if is_full(&shown) {
        return Err(refusal(TypeKind::TooManyItems, at));
    }
    let found = Found {
        column: f.column,
        type_: f.type_,
    };
    standing(scope, at, found)?;
    let name = f.name.copied(alloc)?;
    with_item(shown, TypedExpr::Column(f.column, f.type_), name)
}

fn star_items(
    alloc: Global,
    scope: &Scope<'_>,
    at: u32,
    all: &[Starred],
) -> Result<Shown, TypeRefusal>
    ensures given { Gives (spec.star_items (seen scope.now) at spec.nothing_shown all.now) result }
    ensures short { IfOk result spec.IsShort }
{
    let mut shown = nothing_shown(alloc);
    for f in all {
        shown = star_item(alloc, scope, at, shown, f)?;
    }
    Ok(shown)
}

fn numbered(alloc: Global, place: usize) -> Result<Name, TypeRefusal>
    ensures { Gives (Ok (99 ∷ decimal place)) result }
{
    let text = format!(in alloc; "c{place}")?;
    Ok(Name::from_string(text))
}

fn output_name(
    alloc: Global,
    place: usize,
    alias: &Option<Alias>,
    column: Option<&ColumnName>,
) -> Result<Name, TypeRefusal>
    ensures { Gives (Ok (spec.output_name place alias.now (option_copied column.entry))) result }
{
    match alias {
        Some(a) => Ok(a.name.copied(alloc)?),
        None => match column {
            Some(c) => Ok(c.name.copied(alloc)?),
            None => numbered(alloc, place),
        },
    }
}

#[tactic(auto, unfolding(crate::specs::Items::with_value))]
fn with_value(alloc: Global, shown: Shown, x: &SelectItem, t: Typed) -> Result<Shown, TypeRefusal>
    requires room { length shown.items < 64 }
    requires short { spec.IsShort shown }
    ensures given { Gives (spec.with_value shown x.now t) result }
    ensures short { IfOk result spec.IsShort }
{
    if is_truth(t.kind) {
        return Err(refusal(TypeKind::TypesDiffer, x.value.at));
    }
    let place = shown.items.len() + 1;
    let name = output_name(alloc, place, &x.alias, column_alone(&x.value))?;
    with_item(shown, t.into_value(), name)
}

#[tactic(auto, unfolding(crate::specs::Items::item))]
fn item(
    alloc: Global,
    scope: &Scope<'_>,
    aggregates: &mut Listing<Aggregate>,
    shown: Shown,
    x: &SelectItem,
) -> Result<Shown, TypeRefusal>
    requires narrow { IsNarrow scope.now.defs.now }
    requires few { length scope.now.tables.now ≤ 8 }
    requires short { spec.IsShort shown }
    ensures given { Collects (spec.item (seen scope.now) shown x.now aggregates.old) result aggregates.new }
    ensures short { IfOk result spec.IsShort }
{
    if is_full(&shown) {
        return Err(refusal(TypeKind::TooManyItems, x.value.at));
    }
    let t = expr(alloc, scope, aggregates, Role::Alone, &x.value)?;
    with_value(alloc, shown, x, t)
}

fn items(
    alloc: Global,
    scope: &Scope<'_>,
    aggregates: &mut Listing<Aggregate>,
    list: &[SelectItem],
) -> Result<Shown, TypeRefusal>
    requires narrow { IsNarrow scope.now.defs.now }
    requires few { length scope.now.tables.now ≤ 8 }
    ensures given { Collects (spec.items (seen scope.now) spec.nothing_shown list.now aggregates.old) result aggregates.new }
    ensures short { IfOk result spec.IsShort }
{
    let mut shown = nothing_shown(alloc);
    for x in list {
        shown = item(alloc, scope, aggregates, shown, x)?;
    }
    Ok(shown)
}

/// What is selected.
pub fn shown_of(
    alloc: Global,
    scope: &Scope<'_>,
    aggregates: &mut Listing<Aggregate>,
    list: &SelectList,
) -> Result<Shown, TypeRefusal>
    requires narrow { IsNarrow scope.now.defs.now }
    requires few { length scope.now.tables.now ≤ 8 }
    ensures given { Collects (spec.shown_of (seen scope.now) list.now aggregates.old) result aggregates.new }
    ensures short { IfOk result spec.IsShort }
{
    match list {
        SelectList::All(star) => {
            let all = every_column(alloc, scope.defs, scope.tables)?;
            star_items(alloc, scope, *star, all.as_slice())
        }
        SelectList::Items(list) => items(alloc, scope, aggregates, list.as_slice()),
    }
}
