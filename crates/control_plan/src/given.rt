//! Which words a control file has so far.
ghost use Rattle.control_plan.specs.LineFaults.{IsOnce};

use crate::refusal::ControlKind;

/// Of each word that may stand once, whether it does. A level may stand again.
#[derive(Drop)]
pub struct Given {
    pub select: bool,
    pub layout: bool,
    pub group: bool,
    pub kernel: bool,
    pub split: bool,
    pub piece: bool,
}

/// Marks a word as given, where it is not yet.
pub(crate) fn once(word: &mut bool) -> Result<(), ControlKind>
    ensures { IsOnce result word.old word.new }
{
    if *word {
        return Err(ControlKind::LineTwice);
    }
    *word = true;
    Ok(())
}
