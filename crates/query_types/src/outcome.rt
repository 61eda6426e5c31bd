//! Refusals at a place.

ghost use Rattle.std.specs.Prelude.{◌≡◌};
ghost use Rattle.query_types.specs.Outcomes as spec;

use crate::refusal::{TypeKind, TypeRefusal};

pub fn refusal(kind: TypeKind, at: u32) -> TypeRefusal
    ensures { result ≡ spec.refusal kind at }
{
    TypeRefusal::Bad { at, kind }
}
