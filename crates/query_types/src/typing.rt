//! An expression with its type.

ghost use Rattle.std.specs.Prelude.{◌≡◌, IfOk};

use sqlite_items::Boxed;
use std::alloc::{AllocError, Global};
use typed_trees::{Kind, TypedExpr};

/// A typed expression, the kind of its values, and the scale of its numbers: 0 where they are none.
pub struct Typed {
    pub value: TypedExpr,
    pub kind: Kind,
    pub scale: u32,
}

// Written out, so that letting go of one is a call, in place of a match over each form.
impl Drop for Typed {
    fn drop(self) {
        let Typed {
            value: _,
            kind: _,
            scale: _,
        } = self;
    }
}

impl Typed {
    pub fn into_value(self) -> TypedExpr
        ensures { result ≡ self.value }
    {
        let Typed {
            value,
            kind: _,
            scale: _,
        } = self;
        value
    }
}

/// The expression in a box of its own.
pub fn boxed(alloc: Global, t: Typed) -> Result<Boxed<TypedExpr>, AllocError>
    ensures { IfOk result (λ b. b ≡ t.value) }
{
    Boxed::new(alloc, t.into_value())
}
