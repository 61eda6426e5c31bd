//! The step that loads the tables, each from its file.

ghost use Rattle.std.specs.Prelude.{◌≡◌, ◌≤◌, ◌^◌, ◌++◌, ◌∷◌, [], IfErr, IfOk, IfSome, OnOk, length, map};
ghost use Rattle.sql_types.specs.Catalog.{findings};
ghost use Rattle.table_load.specs.Tables.{table_of};
ghost use Rattle.loaded_plans.specs.Laws.{AreLoaded, IsLoaded};
ghost use Rattle.run_steps.specs.Inputs.{HasFileCause, IsDataRefusal};
ghost use Rattle.run_steps.specs.Loaded.{AreShort};
ghost use Rattle.run_steps.specs.Outcomes.{Meets};
ghost use Rattle.run_steps.specs.Paths as paths;
ghost use Rattle.run_steps.specs.TableFaults.{HasTablesCause};
ghost use Rattle.run_steps.specs.Steps.{table_in, table_outcome, tables_from};

use crate::inputs::{TABLE_LIMIT, read_file};
use crate::paths::table_file;
use crate::status::{FileRole, Status};
use io_edge::{NoMemory, Shelf};
use sql_read::TableDef;
use std::alloc::Global;
use table_load::{DataRefusal, RawTable, load};

/// The tables of a catalog's definitions, in their order. The files lie beside the schema's.
pub fn read_tables<S: Shelf>(
    alloc: Global,
    shelf: &mut S,
    schema: &str,
    defs: &[TableDef],
) -> Result<Vec<RawTable>, Status>
    requires clean { findings defs.now ≡ [] }
    ensures same_files { S.holds shelf.new ≡ S.holds shelf.old }
    ensures later { S.faults shelf.old ≤ S.faults shelf.new }
    ensures tables { IfSome (S.holds shelf.old) (λ files. Meets (λ v. v.items) result (tables_from files schema.now 1 defs.now)) }
    ensures degrees { IfOk result (λ v. map (λ t. t.degree) v.items ≡ map (λ d. length d.columns) defs.now) }
    ensures loaded { IfOk result (λ v. AreLoaded defs.now v.items) }
    ensures short { IfOk result (λ v. AreShort v.items) }
    ensures cause { IfErr result (HasTablesCause (S.holds shelf.old) schema.now defs.now (S.faults shelf.old) (S.faults shelf.new)) }
{
    let mut tables = Vec::with_capacity(alloc, defs.len())?;
    for i in 0..defs.len() {
        match read_table(alloc, shelf, schema, i as u32 + 1, &defs[i]) {
            Ok(table) => keep(&mut tables, table)?,
            Err(status) => return Err(status),
        }
    }
    Ok(tables)
}

/// One more table.
fn keep(tables: &mut Vec<RawTable>, table: RawTable) -> Result<(), NoMemory>
    ensures { OnOk result (tables.new.items ≡ tables.old.items ++ table ∷ []) }
{
    tables.push(table)?;
    Ok(())
}

/// The table with this number, from the file beside the schema's.
fn read_table<S: Shelf>(
    alloc: Global,
    shelf: &mut S,
    schema: &str,
    number: u32,
    def: &TableDef,
) -> Result<RawTable, Status>
    requires few { length def.now.columns ≤ 64 }
    ensures same_files { S.holds shelf.new ≡ S.holds shelf.old }
    ensures later { S.faults shelf.old ≤ S.faults shelf.new }
    ensures table { IfSome (S.holds shelf.old) (λ files. Meets (λ t. t) result (table_in files schema.now number def.now)) }
    ensures degree { IfOk result (λ t. t.degree ≡ length def.now.columns) }
    ensures loaded { IfOk result (IsLoaded def.now) }
    ensures short { IfOk result (λ t. length t.rows ≤ 2 ^ 20) }
    ensures cause { IfErr result (HasFileCause (S.holds shelf.old) (FileRole.Table number) (paths.table_file schema.now def.now.name) (S.faults shelf.old) (S.faults shelf.new)) }
{
    let file = table_file(alloc, schema, def.name.text())?;
    let role = FileRole::Table(number);
    let bytes = read_file(alloc, shelf, role, TABLE_LIMIT, file.text())?;
    loaded(alloc, number, def, bytes.as_slice())
}

/// The table of a file's bytes.
fn loaded(alloc: Global, number: u32, def: &TableDef, bytes: &[u8]) -> Result<RawTable, Status>
    requires few { length def.now.columns ≤ 64 }
    ensures table { Meets (λ t. t) result (table_outcome number (table_of def.now bytes.now)) }
    ensures degree { IfOk result (λ t. t.degree ≡ length def.now.columns) }
    ensures loaded { IfOk result (IsLoaded def.now) }
    ensures short { IfOk result (λ t. length t.rows ≤ 2 ^ 20) }
    ensures kind { IfErr result IsDataRefusal }
{
    match load(alloc, def, bytes) {
        Ok(table) => Ok(table),
        Err(DataRefusal::NoMemory) => Err(Status::NoMemory),
        Err(
            DataRefusal::Bad {
                at_record,
                at_column,
                kind,
            },
        ) => Err(Status::DataRefused {
            table: number,
            at_record,
            at_column,
            kind,
        }),
    }
}
