//! Why columns make no vector.
ghost use Rattle.std.specs.Prelude.{◌≡◌};
ghost use Rattle.struct_vectors.specs.declared.shapes.ShapeRefusal.TheVariants.{NoMemory};

use key_paths::Path;
use std::alloc::AllocError;
use thiserror::Error;

/// Why `StructVector::new` made no vector.
#[derive(Debug, Drop, Error)]
pub enum ShapeRefusal {
    /// The attribute, counted from 0 in the list that was handed over, is the first one whose length
    /// is another than the vector's.
    #[error("attribute {attribute} has another length")]
    LengthDiffers { attribute: u32 },
    /// Two attributes have one path.
    #[error("the path {path} is repeated")]
    PathRepeated { path: Path },
    /// An attribute's path lies below another's.
    #[error("the path {path} lies below {above}")]
    PathNested { above: Path, path: Path },
    /// Memory ran out.
    #[error("out of memory")]
    NoMemory,
}

impl From<AllocError> for ShapeRefusal {
    ghost from_gives = { λ _ refusal. refusal ≡ NoMemory };

    fn from(_error: AllocError) -> ShapeRefusal {
        ShapeRefusal::NoMemory
    }
}
