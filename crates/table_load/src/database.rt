//! The database of some tables.

ghost use Rattle.std.specs.Prelude.{◌≡◌, [], length, map, IfOk};
ghost use Rattle.std.specs.List.{All};
ghost use Rattle.sql_read.specs.Forms.{IsFormed};
ghost use Rattle.sql_types.specs.Catalog.{findings};
ghost use Rattle.table_load.specs.Databases.{database_of};

use crate::RawTable;
use crate::copies::copied_definitions;
use crate::dictionaries::dictionary_of_tables;
use crate::vectors::store_of_tables;
use dict_codes::Dictionary;
use io_edge::NoMemory;
use sql_read::TableDef;
use std::alloc::Global;
use std::marker::Model;
use struct_vectors::Store;

/// Tables with their definitions: a store with a vector for each, named as the table, and the dictionary of all texts.
///
/// A vector has an attribute for each column, a dot and the column's name. Its slots are kept as i64, without empties exactly where
/// none of them is empty. A null is an empty slot, a decimal the number of its units, a date its day number, with 1970-01-01 as 0,
/// and a text its code in the dictionary.
#[derive(Drop)]
pub struct Database {
    defs: Vec<TableDef>,
    dictionary: Dictionary,
    store: Store,
}

impl Model for Database {
    ghost use Rattle.table_load.specs.Databases.{DatabaseValue};

    ghost Value = { DatabaseValue };

    ghost view = { λ d. record { defs = d.defs.items; dictionary = d.dictionary; store = d.store } };
}

impl Database {
    /// The definitions, in order.
    pub fn defs(&self) -> &[TableDef]
        ensures { result.now ≡ self.now.defs }
    {
        self.defs.as_slice()
    }

    /// A vector for each table, by its name.
    pub fn store(&self) -> &Store
        ensures { result.now ≡ self.now.store }
    {
        &self.store
    }

    /// The distinct texts of all tables.
    pub fn dictionary(&self) -> &Dictionary
        ensures { result.now ≡ self.now.dictionary }
    {
        &self.dictionary
    }
}

/// The database of tables that were loaded, each by the definition at its place. Nothing is wrong with the definitions, by
/// the rules of the catalog, and they have the form of a schema's. It fails only for want of memory.
pub fn finish(alloc: Global, defs: &[TableDef], tables: Vec<RawTable>) -> Result<Database, NoMemory>
    requires clean { findings defs.now ≡ [] }
    requires formed { All IsFormed defs.now }
    requires loaded { map (λ t. t.degree) tables.items ≡ map (λ d. length d.columns) defs.now }
    ensures { IfOk result (λ d. d ≡ database_of defs.now tables.items) }
{
    let dictionary = dictionary_of_tables(alloc, tables.as_slice())?;
    let store = store_of_tables(alloc, defs, tables, &dictionary)?;
    let defs = copied_definitions(alloc, defs)?;
    Ok(Database {
        defs,
        dictionary,
        store,
    })
}
