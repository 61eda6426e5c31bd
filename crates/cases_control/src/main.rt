//! Cases of control files: each line of standard input is a case, and below it stands what became of it.
//!
//! - `plan BYTES`: the plan that a control file of these bytes says, or the number of its first line that is refused, and why;
//! - a line that is empty or begins with `#` is no case.
//!
//! A plan is shown as a control file says it, one word a line, with what no line sets too. A layout that is not given is `none`.
#![tactic(auto)]

mod answers;
mod plans;

use answers::answer;
use std::io;

fn main(rt: HostRuntime) -> io::Result<()> {
    for line in rt.lines(rt.alloc()) {
        let line = line?;
        println!(rt; "{line}")?;
        let given = answer(rt.alloc(), line.as_bytes())?;
        print!(rt; "{given}")?;
    }
    Ok(())
}
