//! Control files read.
ghost use Rattle.std.specs.Prelude.{◌≡◌, ◌<◌, ◌^◌, length};
ghost use Rattle.control_plan.specs.LineFaults.{Sets};
ghost use Rattle.control_plan.specs.Lines as line;
ghost use Rattle.control_plan.specs.Reading.{Gives, none_given, read_text, refused, with_line};
ghost use Rattle.control_plan.specs.Settings.{so_far};

use crate::fault::LineFault;
use crate::given::Given;
use crate::lines::{cut, is_ascii, parted, says_nothing, trimmed};
use crate::plan::ControlPlan;
use crate::refusal::{ControlKind, ControlRefusal};
use crate::setting::set;
use crate::words::word_of;
use std::alloc::Global;

/// The plan that a control file says, or the first line that is refused.
///
/// A line has a word, blanks and a value. What no line sets is as in the usual plan. Memory may run out.
#[tactic(auto, unfolding(crate::specs::Reading::read_text))]
pub fn read_control(alloc: Global, bytes: &[u8]) -> Result<ControlPlan, ControlRefusal>
    requires { length bytes.now < 2 ^ 32 }
    ensures { Gives (read_text bytes.now) result }
{
    let mut plan = match ControlPlan::usual(alloc) {
        Ok(plan) => plan,
        Err(_) => return Err(ControlRefusal::NoMemory),
    };
    let mut given = none_given();
    let mut rest = bytes;
    let mut number: usize = 1;
    'lines: while !rest.is_empty() {
        let (line, others) = cut(rest);
        match take_line(&mut plan, &mut given, trimmed(line)) {
            Ok(()) => {}
            Err(fault) => return Err(refusal(number as u32, fault)),
        }
        rest = others;
        number += 1;
    }
    Ok(plan)
}

/// Sets what a trimmed line says, if it says anything.
fn take_line(plan: &mut ControlPlan, given: &mut Given, line: &[u8]) -> Result<(), LineFault>
    ensures { Sets (with_line line.now (so_far plan.old given.old)) result (so_far plan.new given.new) }
{
    if says_nothing(line) {
        return Ok(());
    }
    if !is_ascii(line) {
        return Err(LineFault::Bad(ControlKind::BadWord));
    }
    let (word, value) = parted(line);
    match word_of(word) {
        Some(word) if !value.is_empty() => set(plan, given, word, value),
        _ => Err(LineFault::Bad(ControlKind::BadWord)),
    }
}

/// The refusal of a line.
fn refusal(line: u32, fault: LineFault) -> ControlRefusal
    ensures { result ≡ refused line fault }
{
    match fault {
        LineFault::Bad(kind) => ControlRefusal::Bad { line, kind },
        LineFault::NoMemory => ControlRefusal::NoMemory,
    }
}

/// No word yet.
fn none_given() -> Given
    ensures { result ≡ none_given }
{
    Given {
        select: false,
        layout: false,
        group: false,
        kernel: false,
        split: false,
        piece: false,
    }
}
