//! The catalog.

ghost use Rattle.std.specs.Prelude.{◌≡◌, [], Ok, Err, IfOk, IfErr, MatchResult};
ghost use Rattle.sql_types.specs.Catalog as spec;
ghost use Rattle.sql_types.specs.Findings.{first_from, first_of};

use crate::finding::Finding;
use crate::refusal::SchemaRefusal;
use crate::rules::{
    bad_widths, columns_twice, keys_unknown, tables_twice, too_many_columns, too_many_tables,
    two_keys,
};
use sql_read::TableDef;
use std::marker::Model;

/// The tables of a database: at most 16, of at most 64 columns each, with names of their own, known keys, texts of 1 to 255 bytes and decimals of 1 to 18 digits.
#[derive(Drop)]
pub struct Catalog {
    defs: Vec<TableDef>,
}

impl Model for Catalog {
    ghost use Rattle.std.specs.Prelude.{◌≡◌, List, []};
    ghost use Rattle.sql_read.specs.declared.definition.TableDef.{TableDef as Definition};
    ghost use Rattle.sql_types.specs.Catalog.{findings};

    ghost Value = { List Definition };

    ghost view = { λ c. c.defs.items };

    ghost invariant = { λ c. findings c.defs.items ≡ [] };
}

/// The first of what is wrong within a table and what was found before.
#[tactic(auto, unfolding(crate::specs::Catalog::table_findings))]
fn table_findings(first: Option<Finding>, t: &TableDef) -> Option<Finding>
    ensures { result ≡ first_from first (spec.table_findings t.now) }
{
    // The limit comes first, so that nothing behind the 65th column is looked for among the others.
    let first = too_many_columns(first, t);
    let first = columns_twice(first, t);
    let first = two_keys(first, t);
    let first = keys_unknown(first, t);
    bad_widths(first, t)
}

fn first_wrong(defs: &[TableDef]) -> Option<Finding>
    ensures { result ≡ first_of (spec.findings defs.now) }
{
    let mut first = tables_twice(too_many_tables(None, defs), defs);
    for t in defs {
        first = table_findings(first, t);
    }
    first
}

impl Catalog {
    /// The definitions as a catalog, or the first that is wrong: the one at the least byte, and at one byte the kind that stands first in [`SchemaKind`](crate::SchemaKind). It takes no memory.
    pub fn new(defs: Vec<TableDef>) -> Result<Catalog, SchemaRefusal>
        // A catalog has the definitions, and nothing is wrong with them.
        ensures made { IfOk result (λ c. (c ≡ defs.items) × (spec.findings defs.items ≡ [])) }
        // A refusal is the first of all that is wrong.
        ensures refused { IfErr result (spec.IsFirstWrong defs.items) }
        // The answer is one function of the definitions.
        ensures answer { MatchResult result (λ c. spec.catalog_of defs.items ≡ Ok c) (λ e. spec.catalog_of defs.items ≡ Err e) }
    {
        match first_wrong(defs.as_slice()) {
            None => Ok(Catalog { defs }),
            Some(p) => Err(SchemaRefusal::Bad {
                at: p.at,
                kind: p.kind,
            }),
        }
    }

    /// The definitions, in order. Nothing is wrong with them.
    pub fn defs(&self) -> &[TableDef]
        ensures value { result.now ≡ self.now }
        ensures sound { spec.findings result.now ≡ [] }
    {
        self.defs.as_slice()
    }
}
