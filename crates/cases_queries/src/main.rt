//! Cases of queries as they are read: each line of standard input is a case, and below it stands what became of it.
//!
//! - `query TEXT`: the tree of a query, a clause a line, or the byte and the kind of its first refusal;
//! - `where TEXT`: the same for the condition of `SELECT * FROM t WHERE TEXT`, which begins at byte 22; its tree alone is shown;
//! - `reads TEXT`: that the text is a query, or its first refusal;
//! - a line that is empty or begins with `#` is no case.
//!
//! A tree is `22:a` or `22:(- @24 22:a 26:b)`: the first byte of an expression, what it is, the byte of its operator behind `@`,
//! and its operands. A number is `15`, or `15e-1` where one of its digits stands after a point.
#![tactic(auto)]

mod answers;
mod clauses;
mod expressions;
mod names;
mod queries;

use answers::answer;
use std::io;

fn main(rt: HostRuntime) -> io::Result<()> {
    for line in rt.lines(rt.alloc()) {
        let line = line?;
        println!(rt; "{line}")?;
        let given = answer(rt.alloc(), line.as_bytes())?;
        print!(rt; "{given}")?;
    }
    Ok(())
}
