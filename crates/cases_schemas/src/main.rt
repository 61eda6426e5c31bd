//! Cases of schemas: each line of standard input is a case, and below it stands what became of it.
//!
//! - `tokens N TEXT`: the tokens of a text, at most N and the first one past them, each with its byte, its length and its kind;
//! - `reads TEXT`: that the text is a schema, or the byte and the kind of its first refusal;
//! - `schema TEXT`: the definitions of a schema;
//! - `catalog TEXT`: the tables of a schema's catalog, or the byte and the kind of what is wrong first;
//! - `nullable TEXT`: the columns of a schema that may hold nulls;
//! - `listing BYTES`: a listing that was made of all bytes but the last, to which that one was added, and its length;
//! - a line that is empty or begins with `#` is no case.
#![tactic(auto)]

mod answers;
mod catalogs;
mod definitions;
mod kinds;
mod token_kinds;
mod tokens;

use answers::answer;
use std::io;

fn main(rt: HostRuntime) -> io::Result<()> {
    for line in rt.lines(rt.alloc()) {
        let line = line?;
        println!(rt; "{line}")?;
        let given = answer(rt.alloc(), line.as_bytes())?;
        print!(rt; "{given}")?;
    }
    Ok(())
}
