//! Which columns may hold nulls.

ghost use Rattle.std.specs.Prelude.{◌≡◌};
ghost use Rattle.std.specs.List.{list_any};
ghost use Rattle.sql_types.specs.Catalog as spec;

use sql_read::{ColumnDef, KeyDef, TableDef};

fn has_key(keys: &[KeyDef], name: &str) -> bool
    ensures { result ≡ list_any (spec.is_key_of name.now) keys.now }
{
    keys.iter().any(|k| k.column.text() == name)
}

/// Whether a column of a table may hold nulls: it has no `NOT NULL`, and no `PRIMARY KEY` of the table names it. It looks at each key once.
pub fn may_be_null(t: &TableDef, c: &ColumnDef) -> bool
    ensures { result ≡ spec.may_be_null t.now c.now }
{
    !c.not_null && !has_key(t.keys.as_slice(), c.name.text())
}
