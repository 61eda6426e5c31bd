//! Where rows or groups stand.

ghost use Rattle.std.specs.Prelude.{◌≡◌, IfOk};
ghost use Rattle.program_writers.specs.Codes.{Adds};
ghost use Rattle.plan_programs.specs.Sites as spec;

use dict_codes::Dictionary;
use expr_lower::{AggregatePlace, ColumnPlace, Places, column_path, expr_statements, value_name};
use io_edge::{Name, NoMemory};
use key_paths::Path;
use program_writers::Writer;
use program_writers::paths::mark;
use std::alloc::{AllocError, Global};
use std::marker::Model;
use typed_trees::{ColumnRef, TypedExpr};

/// A vector with a row, or a group, at each place whose mark is nonempty, and the attributes of its columns and aggregates.
pub struct Base {
    pub vector: Name,
    pub places: Places,
}

// Written out, so that letting go of one is a call.
impl Drop for Base {
    fn drop(self) {
        let Base {
            vector: _,
            places: _,
        } = self;
    }
}

impl Model for Base {
    ghost use Rattle.plan_programs.specs.Sites.{Base as Standing, base};

    ghost Value = { Standing };

    ghost view = { λ b. base b.vector b.places.columns.items b.places.aggregates.items };
}

impl Base {
    ghost use Rattle.std.specs.Prelude.{◌≡◌, IfOk};
    ghost use Rattle.plan_programs.specs.Sites as spec;

    /// A vector with nothing but its mark.
    pub fn marked_alone(alloc: Global, vector: Name) -> Base
        ensures { result ≡ spec.marked_alone vector }
    {
        Base {
            vector,
            places: Places {
                columns: Vec::new(alloc),
                aggregates: Vec::new(alloc),
            },
        }
    }

    /// The same rows at another vector.
    pub fn moved_to(self, vector: Name) -> Base
        ensures { result ≡ spec.moved_to vector self }
    {
        let Base { vector: _, places } = self;
        Base { vector, places }
    }

    /// The same rows again.
    pub fn copied(&self, alloc: Global) -> Result<Base, NoMemory>
        ensures { IfOk result (λ b. b ≡ self.now) }
    {
        let vector = self.vector.copied(alloc)?;
        let columns = copied_columns(alloc, self.places.columns.as_slice())?;
        let aggregates = copied_aggregates(alloc, self.places.aggregates.as_slice())?;
        Ok(Base {
            vector,
            places: Places {
                columns,
                aggregates,
            },
        })
    }

    /// One column more.
    pub fn with_column(self, vector: Name, column: ColumnRef, path: Path) -> Result<Base, NoMemory>
        ensures { IfOk result (λ b. b ≡ spec.with_column vector column path self) }
    {
        let Base { vector: _, places } = self;
        let Places {
            mut columns,
            aggregates,
        } = places;
        columns.push(ColumnPlace { column, path })?;
        Ok(Base {
            vector,
            places: Places {
                columns,
                aggregates,
            },
        })
    }

    /// One aggregate more.
    pub fn with_aggregate(
        self,
        vector: Name,
        aggregate: usize,
        path: Path,
    ) -> Result<Base, NoMemory>
        ensures { IfOk result (λ b. b ≡ spec.with_aggregate vector aggregate path self) }
    {
        let Ok(aggregate) = u32::try_from(aggregate) else {
            return Err(AllocError);
        };
        let Base { vector: _, places } = self;
        let Places {
            columns,
            mut aggregates,
        } = places;
        aggregates.push(AggregatePlace { aggregate, path })?;
        Ok(Base {
            vector,
            places: Places {
                columns,
                aggregates,
            },
        })
    }

    /// The path of a column.
    pub fn path_in(&self, alloc: Global, column: ColumnRef) -> Result<Path, NoMemory>
        ensures { IfOk result (λ p. p ≡ spec.path_in self.now column) }
    {
        column_path(alloc, self.places.columns.as_slice(), column)
    }
}

/// The value of an expression, at `.out` of the vector that it tells.
pub fn value_of(
    alloc: Global,
    w: &mut Writer,
    dictionary: &Dictionary,
    word: &str,
    b: &Base,
    e: &TypedExpr,
) -> Result<Name, NoMemory>
    ensures { IfOk result (λ n. Adds (spec.value_of dictionary.now word.now b.now e.now) w.old w.new n) }
{
    let mark = mark(alloc)?;
    let stem = w.stem(word)?;
    let statements = expr_statements(alloc, e, &b.vector, &mark, &b.places, dictionary, &stem)?;
    w.append(statements)?;
    value_name(alloc, &stem)
}

fn copied_columns(alloc: Global, columns: &[ColumnPlace]) -> Result<Vec<ColumnPlace>, NoMemory>
    ensures { IfOk result (λ v. v.items ≡ columns.now) }
{
    let mut copies = Vec::with_capacity(alloc, columns.len())?;
    for p in columns {
        copies.push(ColumnPlace {
            column: p.column,
            path: p.path.copied(alloc)?,
        })?;
    }
    Ok(copies)
}

fn copied_aggregates(
    alloc: Global,
    aggregates: &[AggregatePlace],
) -> Result<Vec<AggregatePlace>, NoMemory>
    ensures { IfOk result (λ v. v.items ≡ aggregates.now) }
{
    let mut copies = Vec::with_capacity(alloc, aggregates.len())?;
    for p in aggregates {
        copies.push(AggregatePlace {
            aggregate: p.aggregate,
            path: p.path.copied(alloc)?,
        })?;
    }
    Ok(copies)
}
