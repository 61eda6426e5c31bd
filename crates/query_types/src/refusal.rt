//! Why a query has no types.

use std::alloc::AllocError;
use thiserror::Error;

/// What is wrong with a query at a place.
#[derive(Clone, Copy, Debug)]
pub enum TypeKind {
    /// A table that the catalog, or FROM, has not.
    UnknownTable,
    /// A column that its table has not, or an item's place that the list has not.
    UnknownColumn,
    /// A bare name that several tables of FROM, or several items, have.
    Ambiguous,
    /// A name by which an earlier table of FROM is called.
    NameTwice,
    /// Values of kinds that an operator does not take.
    TypesDiffer,
    /// A column of a grouped query that is no group column, outside aggregates.
    NotGrouped,
    /// An aggregate in WHERE or inside an aggregate.
    NestedAggregate,
    /// The column of a joined table that is not its primary key.
    NotAKey,
    /// A divisor that is 0.
    ZeroDivisor,
    /// DISTINCT beside GROUP BY, or of an item that is not a column alone.
    NotColumns,
    /// The ninth table.
    TooManyTables,
    /// The 65th item.
    TooManyItems,
    /// The fifth group column, or the ninth key of ORDER BY.
    TooManyKeys,
    /// A product of which more than 36 digits stand after the point.
    ScaleTooLarge,
}

/// Why a query has no types.
#[derive(Clone, Copy, Debug, Drop, Error)]
pub enum TypeRefusal {
    /// Memory was refused.
    #[error("out of memory")]
    NoMemory,
    /// The query is refused at a byte of its text, counted from 0.
    #[error("byte {at}: {kind:?}")]
    Bad { at: u32, kind: TypeKind },
}

impl From<AllocError> for TypeRefusal {
    ghost use Rattle.std.specs.Prelude.{◌≡◌};
    ghost use Rattle.query_types.specs.declared.refusal.TypeRefusal.TheVariants.{NoMemory};

    ghost from_gives = { λ _ e. e ≡ NoMemory };

    fn from(_error: AllocError) -> TypeRefusal {
        TypeRefusal::NoMemory
    }
}
