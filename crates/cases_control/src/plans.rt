//! Plans as text.

use control_plan::{ControlPlan, Grouping, Kernel, Split};
use control_vectors::ControlVector;
use std::alloc::AllocError;

/// Appends the settings of a plan, one a line.
pub fn show_plan(out: &mut String, plan: &ControlPlan) -> Result<(), AllocError> {
    show_vector(out, "select", plan.select())?;
    match plan.layout() {
        Some(layout) => show_vector(out, "layout", layout)?,
        None => out.push_str("    layout none\n")?,
    }
    for level in plan.levels() {
        show_vector(out, "level", *level)?;
    }
    show_choices(out, plan)
}

fn show_vector(out: &mut String, word: &str, v: ControlVector) -> Result<(), AllocError> {
    let (start, step) = (v.start(), v.step());
    let (modulus, divisor) = (v.modulus(), v.divisor());
    writeln!(out, "    {word} {start},{step},{modulus},{divisor}")
}

fn show_choices(out: &mut String, plan: &ControlPlan) -> Result<(), AllocError> {
    let group = match plan.group() {
        Grouping::Sort => "sort",
        Grouping::Partition => "partition",
    };
    let kernel = match plan.kernel() {
        Kernel::Scalar => "scalar",
        Kernel::Lanes => "lanes",
        Kernel::Ends => "ends",
    };
    let split = match plan.split() {
        Split::Even => "even",
        Split::Claim => "claim",
    };
    let piece = plan.piece();
    writeln!(out, "    group {group}")?;
    writeln!(out, "    kernel {kernel}")?;
    writeln!(out, "    split {split}")?;
    writeln!(out, "    piece {piece}")
}
