//! Steps: what is done at one place of a vector, one after another.

ghost use Rattle.std.specs.Prelude.{◌≡◌};

use control_vectors::PairKind;
use typed_trees::ColumnRef;

/// Where an operand of a step stands.
#[derive(Clone, Copy)]
pub enum Source {
    /// The mark: nonempty at the places where an expression is evaluated.
    Mark,
    /// A column of the row.
    Column(ColumnRef),
    /// An aggregate of the group, by its place in the query's list.
    Aggregate(u32),
    /// What an earlier step made, by its number from 0 on.
    Made(usize),
    /// One number for every place.
    Number(i128),
}

/// One operator that works slot by slot, with its two operands.
#[derive(Clone, Copy)]
pub struct Step {
    pub kind: PairKind,
    pub x: Source,
    pub y: Source,
}

/// How far the numbers or the texts of two operands are apart: what each is multiplied by, so that they compare and add.
#[derive(Clone, Copy)]
pub struct Factors {
    pub x: i128,
    pub y: i128,
}
