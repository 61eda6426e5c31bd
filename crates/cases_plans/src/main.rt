//! Cases of plans: each line of standard input is a case, and below it stands what became of it.
//!
//! - `schema TEXT`: the schema that the cases below it are over;
//! - `plan TEXT`: the plan of a query, then with its conditions pushed, then also with its columns pruned, a line each; or that it has none;
//! - a line that is empty or begins with `#` is no case.
//!
//! A source is `(table: columns; conditions)`: the table's place, the places of the columns that it has, and how many conditions are on its rows
//! alone. Behind the sources stands how many conditions are on whole rows, and `groups` where the answer is made of groups.
#![tactic(auto)]

mod answers;
mod plans;

use answers::{answer, schema_in};
use std::io;

fn main(rt: HostRuntime) -> io::Result<()> {
    let mut schema = Vec::new(rt.alloc());
    for line in rt.lines(rt.alloc()) {
        let line = line?;
        println!(rt; "{line}")?;
        schema_in(&mut schema, line.as_bytes())?;
        let given = answer(rt.alloc(), schema.as_slice(), line.as_bytes())?;
        print!(rt; "{given}")?;
    }
    Ok(())
}
