//! The places at which runs begin.
ghost use Rattle.std.specs.Prelude.{◌≡◌, ◌<◌, length, IfOk};
ghost use Rattle.run_infer.specs.Marks.{IsNextStart, starts_of};

use crate::NoMemory;
use crate::marks::RunMarks;
use std::alloc::Global;

/// The least place above `after` at which a run begins, or the length where there is none.
pub fn next_start<M: RunMarks>(marks: &M, after: u32) -> u32
    requires { after < length (M.marks marks.now) }
    ensures { IsNextStart (M.marks marks.now) after result }
{
    let count = marks.len();
    let mut next = after + 1;
    while next < count && !marks.starts(next) {
        next += 1;
    }
    next
}

/// All places at which a run begins, ascending.
pub fn run_starts<M: RunMarks>(alloc: Global, marks: &M) -> Result<Vec<u32>, NoMemory>
    ensures { IfOk result (λ starts. starts.items ≡ starts_of (M.marks marks.now)) }
{
    let mut starts = Vec::new(alloc);
    for i in 0..marks.len() {
        if marks.starts(i) {
            starts.push(i)?;
        }
    }
    Ok(starts)
}
