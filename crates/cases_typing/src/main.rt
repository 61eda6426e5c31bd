//! Cases of typed queries: each line of standard input is a case, and below it stands what became of it.
//!
//! - `schema TEXT`: the schema that the cases below it are typed over;
//! - `typed TEXT`: a query as it is meant, a clause a line, or the byte and the kind of its first refusal;
//! - `types TEXT`: that the query has types, or its first refusal;
//! - `within TEXT`: of each part of the condition of `SELECT a FROM t WHERE TEXT` whether it cannot leave 128 bits;
//! - `ends TEXT`: the least and the greatest that `TEXT` can be in `SELECT TEXT FROM t`, or that it has no such ends within 128 bits;
//! - a line that is empty or begins with `#` is no case.
//!
//! Tables, sources, columns, aggregates and items count from 0. A column is `[source.column kind]`, with the width of a text, and the precision and
//! the scale of a decimal. A number is `15`, or `15e-1` where one of its digits stands after a point, and an aggregate in an expression
//! `(aggregate place)`, with its scale where that is not 0.
#![tactic(auto)]

mod answers;
mod clauses;
mod expressions;
mod names;
mod queries;

use answers::{answer, schema_in};
use std::io;

fn main(rt: HostRuntime) -> io::Result<()> {
    let mut schema = Vec::new(rt.alloc());
    for line in rt.lines(rt.alloc()) {
        let line = line?;
        println!(rt; "{line}")?;
        schema_in(&mut schema, line.as_bytes())?;
        let given = answer(rt.alloc(), schema.as_slice(), line.as_bytes())?;
        print!(rt; "{given}")?;
    }
    Ok(())
}
