//! Why a line was not taken.

use crate::refusal::ControlKind;
use std::alloc::AllocError;

/// What is wrong with the line, or that memory ran out.
#[derive(Clone, Copy, Debug)]
pub enum LineFault {
    Bad(ControlKind),
    NoMemory,
}

impl From<ControlKind> for LineFault {
    ghost use Rattle.std.specs.Prelude.{◌≡◌};
    ghost use Rattle.control_plan.specs.declared.fault.LineFault.TheVariants.{Bad};

    ghost from_gives = { λ kind fault. fault ≡ Bad kind };

    fn from(kind: ControlKind) -> LineFault {
        LineFault::Bad(kind)
    }
}

impl From<AllocError> for LineFault {
    ghost use Rattle.std.specs.Prelude.{◌≡◌};
    ghost use Rattle.control_plan.specs.declared.fault.LineFault.TheVariants.{NoMemory};

    ghost from_gives = { λ _ fault. fault ≡ NoMemory };

    fn from(_error: AllocError) -> LineFault {
        LineFault::NoMemory
    }
}
