//! Cases of generated jobs: each line of standard input is a case, and below it stands what became of it.
//!
//! - `schema` and `query`: the texts beside the table;
//! - `table SEED ROWS`: the table's bytes;
//! - `sum SEED ROWS`: how many bytes the table has, and their Adler-32 checksum (RFC 1950);
//! - `loads SEED ROWS`: how many rows are loaded by the schema, or what is refused;
//! - a line that is empty or begins with `#` is no case.
#![tactic(auto)]

mod answers;
mod loading;
mod sums;

use answers::answer;
use std::io;

fn main(rt: HostRuntime) -> io::Result<()> {
    for line in rt.lines(rt.alloc()) {
        let line = line?;
        println!(rt; "{line}")?;
        let given = answer(rt.alloc(), line.as_bytes())?;
        print!(rt; "{given}")?;
    }
    Ok(())
}
