//! The vectors of tables.

ghost use Rattle.std.specs.Prelude.{◌≡◌, ◌≤◌, ◌<◌, ◌^◌, ◌++◌, ℕ, true, [], ◌∷◌, length, map, IfOk};
ghost use Rattle.std.specs.List.{All};
ghost use Rattle.dict_codes.specs.Ascending.{ascending};
ghost use Rattle.sql_read.specs.Forms.{is_name, IsFormed, IsNamed};
ghost use Rattle.sql_types.specs.Catalog.{findings};
ghost use Rattle.sql_values.specs.Texts.{by_bytes};
ghost use Rattle.struct_vectors.specs.Vectors.{HaveLength, paths_of, vector_of};
ghost use Rattle.table_load.specs.Databases.{store_of, vector_of_table};
ghost use Rattle.table_load.specs.HeldColumns.{AreColumns};
ghost use Rattle.table_load.specs.Vectors.{AreColumnPaths, HasColumns, attribute_in, attributes_in};

use crate::RawTable;
use crate::dictionaries::codes_of;
use crate::held::HeldColumn;
use dict_codes::Dictionary;
use io_edge::{Name, NoMemory};
use key_paths::Path;
use sql_read::{ColumnDef, TableDef};
use std::alloc::{AllocError, Global};
use struct_vectors::{Column, ShapeRefusal, Store, StructVector};

/// The store of the vectors of tables.
pub fn store_of_tables(
    alloc: Global,
    defs: &[TableDef],
    tables: Vec<RawTable>,
    dictionary: &Dictionary,
) -> Result<Store, NoMemory>
    requires clean { findings defs.now ≡ [] }
    requires formed { All IsFormed defs.now }
    requires loaded { map (λ t. t.degree) tables.items ≡ map (λ d. length d.columns) defs.now }
    ensures { IfOk result (λ s. s ≡ store_of dictionary.now defs.now tables.items) }
{
    let vectors = vectors_of_tables(alloc, defs, tables, dictionary)?;
    Ok(Store::new(vectors))
}

/// A named vector for each table.
fn vectors_of_tables(
    alloc: Global,
    defs: &[TableDef],
    tables: Vec<RawTable>,
    dictionary: &Dictionary,
) -> Result<Vec<(Name, StructVector)>, NoMemory>
    requires columns { All HasColumns defs.now }
    requires loaded { map (λ t. t.degree) tables.items ≡ map (λ d. length d.columns) defs.now }
    ensures { IfOk result (λ v. v.items ≡ store_of dictionary.now defs.now tables.items) }
{
    let mut vectors = Vec::with_capacity(alloc, defs.len())?;
    let mut i = 0;
    for table in tables {
        if i < defs.len() {
            let def = &defs[i];
            vectors.push((
                def.name.copied(alloc)?,
                vector_of(alloc, def, table, dictionary)?,
            ))?;
            i += 1;
        }
    }
    Ok(vectors)
}

/// The vector of a table.
fn vector_of(
    alloc: Global,
    def: &TableDef,
    table: RawTable,
    dictionary: &Dictionary,
) -> Result<StructVector, NoMemory>
    requires columns { HasColumns def.now }
    requires loaded { table.degree ≡ length def.now.columns }
    ensures { IfOk result (λ v. v ≡ vector_of_table dictionary.now def.now table) }
{
    let RawTable {
        columns,
        are_texts,
        texts,
        count,
    } = table;
    let codes = codes_of(alloc, dictionary, texts.as_slice())?;
    let attributes = attributes_of(
        alloc,
        def.columns.as_slice(),
        columns,
        are_texts.as_slice(),
        codes.as_slice(),
    )?;
    vector_of_attributes(alloc, count, attributes)
}

/// The vector of attributes whose columns have one length, and whose paths differ.
fn vector_of_attributes(
    alloc: Global,
    count: u32,
    attributes: Vec<(Path, Column)>,
) -> Result<StructVector, NoMemory>
    requires few_slots { count ≤ 2 ^ 20 }
    requires some { 1 ≤ length attributes.items }
    requires few { length attributes.items ≤ 64 }
    requires lengths { HaveLength count attributes.items }
    requires paths { AreColumnPaths (paths_of attributes.items) }
    ensures { IfOk result (λ v. v ≡ vector_of count (ascending (λ a b. by_bytes a.0 b.0) attributes.items)) }
{
    match StructVector::new(alloc, count, attributes) {
        Ok(vector) => Ok(vector),
        Err(ShapeRefusal::NoMemory) => Err(AllocError),
        Err(ShapeRefusal::LengthDiffers { attribute: _ }) => unreachable!(),
        Err(ShapeRefusal::PathRepeated { path: _ }) => unreachable!(),
        Err(ShapeRefusal::PathNested { above: _, path: _ }) => unreachable!(),
    }
}

/// An attribute for each column.
fn attributes_of(
    alloc: Global,
    defs: &[ColumnDef],
    columns: Vec<HeldColumn>,
    are_texts: &[bool],
    codes: &[i64],
) -> Result<Vec<(Path, Column)>, NoMemory>
    requires whole { (m : ℕ) × (n : ℕ) × (n ≤ 2 ^ 20) × AreColumns m n are_texts.now columns.items }
    requires lengths { length are_texts.now ≡ length defs.now }
    requires named { All IsNamed defs.now }
    ensures { IfOk result (λ v. v.items ≡ attributes_in codes.now are_texts.now columns.items defs.now) }
{
    let mut attributes = Vec::with_capacity(alloc, defs.len())?;
    let mut i = 0;
    for column in columns {
        if i < defs.len() && i < are_texts.len() {
            attributes.push(attribute_of(alloc, &defs[i], column, are_texts[i], codes)?)?;
            i += 1;
        }
    }
    Ok(attributes)
}

/// The attribute of a column.
fn attribute_of(
    alloc: Global,
    def: &ColumnDef,
    column: HeldColumn,
    is_text: bool,
    codes: &[i64],
) -> Result<(Path, Column), NoMemory>
    requires named { IsNamed def.now }
    requires few { length column ≤ 2 ^ 22 }
    ensures { IfOk result (λ a. a ≡ attribute_in codes.now def.now is_text column) }
{
    let path = path_of(alloc, def.name.text())?;
    if !is_text {
        return Ok((path, column.into_column()?));
    }
    let column = column.recoded(alloc, codes)?;
    Ok((path, column.into_column()?))
}

/// The path of a column: a dot and its name.
fn path_of(alloc: Global, name: &str) -> Result<Path, NoMemory>
    requires { is_name name.now ≡ true }
    ensures { IfOk result (λ p. p ≡ 46 ∷ name.now) }
{
    let mut text = String::new(alloc);
    text.push('.')?;
    text.push_str(name)?;
    Path::of(alloc, text.as_str())
}
