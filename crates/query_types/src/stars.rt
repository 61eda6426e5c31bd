//! What `*` stands for.

ghost use Rattle.std.specs.Prelude.{◌≡◌, ◌≤◌, ◌++◌, length, Ok, OnOk};
ghost use Rattle.query_types.specs.Names.{IsNarrow};
ghost use Rattle.query_types.specs.Grouping as spec;
ghost use Rattle.query_types.specs.Outcomes.{Gives};

use crate::names::{columns_of, type_of_column};
use crate::refusal::TypeRefusal;
use crate::scope::Called;
use io_edge::Name;
use sql_read::{ColumnDef, Listing, TableDef};
use std::alloc::Global;
use typed_trees::{ColumnRef, ColumnType};

/// A column that `*` stands for.
#[derive(Drop)]
pub struct Starred {
    pub column: ColumnRef,
    pub type_: ColumnType,
    pub name: Name,
}

/// Adds the columns of a source.
fn add_columns(
    alloc: Global,
    all: &mut Listing<Starred>,
    source: u32,
    columns: &[ColumnDef],
) -> Result<(), TypeRefusal>
    requires { length columns.now ≤ 64 }
    ensures given { OnOk result (all.new ≡ all.old ++ spec.table_columns source 0 columns.now) }
    ensures only { Gives (Ok tt) result }
{
    for (k, c) in columns.iter().enumerate() {
        let column = ColumnRef {
            source,
            column: k as u32,
        };
        let name = c.name.copied(alloc)?;
        all.push(Starred {
            column,
            type_: type_of_column(c),
            name,
        })?;
    }
    Ok(())
}

/// All columns of all tables of FROM.
pub fn every_column(
    alloc: Global,
    defs: &[TableDef],
    tables: &[Called],
) -> Result<Listing<Starred>, TypeRefusal>
    requires narrow { IsNarrow defs.now }
    requires few { length tables.now ≤ 8 }
    ensures { Gives (Ok (spec.every_column defs.now 0 tables.now)) result }
{
    let mut all = Listing::new(alloc);
    for (s, t) in tables.iter().enumerate() {
        add_columns(alloc, &mut all, s as u32, columns_of(defs, t.table))?;
    }
    Ok(all)
}
