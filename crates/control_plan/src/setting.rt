//! What a line sets in a plan.
ghost use Rattle.std.specs.Prelude.{◌≡◌};
ghost use Rattle.control_plan.specs.declared.words.Word.TheVariants as word;
ghost use Rattle.control_plan.specs.LineFaults.{Sets};
ghost use Rattle.control_plan.specs.Settings.{so_far, with_setting};

use crate::fault::LineFault;
use crate::given::{Given, once};
use crate::numbers::{piece_in, vector_in};
use crate::plan::ControlPlan;
use crate::refusal::ControlKind;
use crate::words::{Word, grouping_of, kernel_of, split_of};

/// How many levels a plan has at most.
const LEVELS: usize = 4;

/// Sets what a line's word and value say.
pub(crate) fn set(
    plan: &mut ControlPlan,
    given: &mut Given,
    word: Word,
    value: &[u8],
) -> Result<(), LineFault>
    ensures { Sets (with_setting word value.now (so_far plan.old given.old)) result (so_far plan.new given.new) }
{
    match word {
        Word::Select => set_select(plan, given, value),
        Word::Layout => set_layout(plan, given, value),
        Word::Level => push_level(plan, value),
        Word::Group => set_group(plan, given, value),
        Word::Kernel => set_kernel(plan, given, value),
        Word::Split => set_split(plan, given, value),
        Word::Piece => set_piece(plan, given, value),
    }
}

fn set_select(plan: &mut ControlPlan, given: &mut Given, value: &[u8]) -> Result<(), LineFault>
    ensures { Sets (with_setting word.Select value.now (so_far plan.old given.old)) result (so_far plan.new given.new) }
{
    once(&mut given.select)?;
    plan.set_select(vector_in(value)?);
    Ok(())
}

fn set_layout(plan: &mut ControlPlan, given: &mut Given, value: &[u8]) -> Result<(), LineFault>
    ensures { Sets (with_setting word.Layout value.now (so_far plan.old given.old)) result (so_far plan.new given.new) }
{
    once(&mut given.layout)?;
    plan.set_layout(vector_in(value)?);
    Ok(())
}

fn push_level(plan: &mut ControlPlan, value: &[u8]) -> Result<(), LineFault>
    ensures { (given : Given) → Sets (with_setting word.Level value.now (so_far plan.old given)) result (so_far plan.new given) }
{
    if plan.levels().len() >= LEVELS {
        return Err(LineFault::Bad(ControlKind::TooManyLevels));
    }
    plan.push_level(vector_in(value)?)?;
    Ok(())
}

fn set_group(plan: &mut ControlPlan, given: &mut Given, value: &[u8]) -> Result<(), LineFault>
    ensures { Sets (with_setting word.Group value.now (so_far plan.old given.old)) result (so_far plan.new given.new) }
{
    let Some(group) = grouping_of(value) else {
        return Err(LineFault::Bad(ControlKind::BadWord));
    };
    once(&mut given.group)?;
    plan.set_group(group);
    Ok(())
}

fn set_kernel(plan: &mut ControlPlan, given: &mut Given, value: &[u8]) -> Result<(), LineFault>
    ensures { Sets (with_setting word.Kernel value.now (so_far plan.old given.old)) result (so_far plan.new given.new) }
{
    let Some(kernel) = kernel_of(value) else {
        return Err(LineFault::Bad(ControlKind::BadWord));
    };
    once(&mut given.kernel)?;
    plan.set_kernel(kernel);
    Ok(())
}

fn set_split(plan: &mut ControlPlan, given: &mut Given, value: &[u8]) -> Result<(), LineFault>
    ensures { Sets (with_setting word.Split value.now (so_far plan.old given.old)) result (so_far plan.new given.new) }
{
    let Some(split) = split_of(value) else {
        return Err(LineFault::Bad(ControlKind::BadWord));
    };
    once(&mut given.split)?;
    plan.set_split(split);
    Ok(())
}

fn set_piece(plan: &mut ControlPlan, given: &mut Given, value: &[u8]) -> Result<(), LineFault>
    ensures { Sets (with_setting word.Piece value.now (so_far plan.old given.old)) result (so_far plan.new given.new) }
{
    once(&mut given.piece)?;
    plan.set_piece(piece_in(value)?);
    Ok(())
}
