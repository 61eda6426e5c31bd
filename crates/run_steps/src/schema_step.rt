//! The step that reads the schema.

ghost use Rattle.std.specs.Prelude.{◌≡◌, ◌≤◌, [], IfErr, IfOk, IfSome, Ok, length};
ghost use Rattle.std.specs.List.{All};
ghost use Rattle.sql_read.specs.Forms.{IsFormed};
ghost use Rattle.sql_read.specs.SchemaText.{schema_of};
ghost use Rattle.sql_types.specs.Catalog as spec;
ghost use Rattle.run_steps.specs.Inputs.{HasFileCause, IsSchemaRefusal};
ghost use Rattle.run_steps.specs.Loaded.{IsReadSchema};
ghost use Rattle.run_steps.specs.Outcomes.{Meets};
ghost use Rattle.run_steps.specs.Steps.{catalog_in, text_outcome, catalog_outcome};

use crate::inputs::{SCHEMA_LIMIT, read_file};
use crate::status::{FileRole, SchemaCause, Status};
use io_edge::Shelf;
use sql_read::{SqlRefusal, TableDef, read_schema};
use sql_types::{Catalog, SchemaRefusal};
use std::alloc::Global;

/// The schema's catalog.
pub fn read_catalog<S: Shelf>(alloc: Global, shelf: &mut S, file: &str) -> Result<Catalog, Status>
    ensures same_files { S.holds shelf.new ≡ S.holds shelf.old }
    ensures later { S.faults shelf.old ≤ S.faults shelf.new }
    ensures catalog { IfSome (S.holds shelf.old) (λ files. Meets (λ c. c) result (catalog_in files file.now)) }
    ensures clean { IfOk result (λ c. spec.findings c ≡ []) }
    ensures formed { IfOk result (λ c. All IsFormed c) }
    ensures read { IfOk result IsReadSchema }
    ensures cause { IfErr result (HasFileCause (S.holds shelf.old) FileRole.Schema file.now (S.faults shelf.old) (S.faults shelf.new)) }
{
    let bytes = read_file(alloc, shelf, FileRole::Schema, SCHEMA_LIMIT, file)?;
    let defs = defs_of(alloc, bytes.as_slice())?;
    catalog_of(defs)
}

/// The definitions of a schema's text.
fn defs_of(alloc: Global, bytes: &[u8]) -> Result<Vec<TableDef>, Status>
    requires { length bytes.now ≤ 65536 }
    ensures defs { Meets (λ v. v.items) result (text_outcome (schema_of bytes.now)) }
    ensures formed { IfOk result (λ v. All IsFormed v.items) }
    ensures read { IfOk result (λ v. schema_of bytes.now ≡ Ok v.items) }
    ensures kind { IfErr result IsSchemaRefusal }
{
    match read_schema(alloc, bytes) {
        Ok(defs) => Ok(defs),
        Err(SqlRefusal::NoMemory) => Err(Status::NoMemory),
        Err(SqlRefusal::Bad { at, kind }) => Err(Status::SchemaRefused {
            at,
            kind: SchemaCause::Text(kind),
        }),
    }
}

/// The catalog of some definitions.
fn catalog_of(defs: Vec<TableDef>) -> Result<Catalog, Status>
    requires formed { All IsFormed defs.items }
    ensures catalog { Meets (λ c. c) result (catalog_outcome (spec.catalog_of defs.items)) }
    ensures clean { IfOk result (λ c. spec.findings c ≡ []) }
    ensures formed { IfOk result (λ c. All IsFormed c) }
    ensures same { IfOk result (λ c. c ≡ defs.items) }
    ensures kind { IfErr result IsSchemaRefusal }
{
    match Catalog::new(defs) {
        Ok(catalog) => Ok(catalog),
        Err(SchemaRefusal::NoMemory) => Err(Status::NoMemory),
        Err(SchemaRefusal::Bad { at, kind }) => Err(Status::SchemaRefused {
            at,
            kind: SchemaCause::Catalog(kind),
        }),
    }
}
