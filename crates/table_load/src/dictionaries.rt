//! The dictionary of all tables, and the codes of a table's texts in it.

ghost use Rattle.std.specs.Prelude.{◌≡◌, ◌≤◌, ◌+◌, ◌^◌, ◌++◌, [], length, map, pos, IfOk, OnOk};
ghost use Rattle.std.specs.List.{All};
ghost use Rattle.dict_codes.specs.Dictionaries.{dictionary_of, rank_in};
ghost use Rattle.table_load.specs.Databases.{rows_texts, tables_texts};
ghost use Rattle.table_load.specs.HeldColumns.{noted};

use crate::RawTable;
use dict_codes::Dictionary;
use io_edge::{Name, NoMemory};
use std::alloc::Global;

/// The dictionary of the texts of at most 16 tables of at most 64 columns each.
pub fn dictionary_of_tables(alloc: Global, tables: &[RawTable]) -> Result<Dictionary, NoMemory>
    requires few { length tables.now ≤ 16 }
    requires narrow { All (λ t. t.degree ≤ 64) tables.now }
    ensures { IfOk result (λ d. d ≡ dictionary_of (tables_texts tables.now)) }
{
    let mut texts = Vec::new(alloc);
    for table in tables {
        add_texts(alloc, &mut texts, table)?;
    }
    Dictionary::from_texts(alloc, texts)
}

/// Adds a table's distinct texts: at most 64 of each of its 2^20 rows.
fn add_texts(alloc: Global, texts: &mut Vec<Name>, table: &RawTable) -> Result<(), NoMemory>
    requires narrow { table.now.degree ≤ 64 }
    ensures texts { OnOk result (texts.new.items ≡ texts.old.items ++ noted [] (rows_texts table.now.rows)) }
    ensures few { OnOk result (length texts.new.items ≤ length texts.old.items + 2 ^ 26) }
{
    for text in table.texts.as_slice() {
        texts.push(text.copied(alloc)?)?;
    }
    Ok(())
}

/// The code of each text.
pub fn codes_of(
    alloc: Global,
    dictionary: &Dictionary,
    texts: &[Name],
) -> Result<Vec<i64>, NoMemory>
    ensures { IfOk result (λ v. v.items ≡ map (λ t. pos (rank_in dictionary.now t)) texts.now) }
{
    let mut codes = Vec::with_capacity(alloc, texts.len())?;
    for text in texts {
        let (code, _) = dictionary.rank(text.text());
        codes.push(i64::from(code))?;
    }
    Ok(codes)
}
