//! Cases of tables and dictionaries: each line of standard input is a case, and below it stands what became of it.
//!
//! - `schema TEXT`: the schema of one or two tables that the cases below it are loaded by;
//! - `tables BYTES` or `tables BYTES|BYTES`: the files of its tables; the columns of the database and its texts, or the number
//!   of the first table that is refused with the record, the column and the kind;
//! - `rows BYTES` or `rows BYTES|BYTES`: the same, but only how many rows each table has;
//! - `codes TEXT,TEXT..`: the texts of a dictionary of these texts, by their codes;
//! - `rank TEXT,TEXT..|TEXT`: how many texts of that dictionary are below the last one, and whether it is one of them;
//! - `text TEXT,TEXT..|CODE`: the text of a code;
//! - a line that is empty or begins with `#` is no case.
#![tactic(auto)]

mod answers;
mod databases;
mod loading;
mod refusals;
mod texts;

use answers::{answer, schema_in};
use std::io;

fn main(rt: HostRuntime) -> io::Result<()> {
    let mut schema = Vec::new(rt.alloc());
    for line in rt.lines(rt.alloc()) {
        let line = line?;
        println!(rt; "{line}")?;
        schema_in(&mut schema, line.as_bytes())?;
        let given = answer(rt.alloc(), schema.as_slice(), line.as_bytes())?;
        print!(rt; "{given}")?;
    }
    Ok(())
}
