//! Laws of the definitions, for what stands above.

ghost use Rattle.move_kernels.specs.Laws.{StretchLaws, WholeLaws};

/// Over slots none of which is Over, a kernel gives its stretch of what the whole operator gives.
pub fn stretch_law()
    ensures { StretchLaws }
{}

/// Over the whole stretch it gives the whole.
pub fn whole_law()
    ensures { WholeLaws }
{}
