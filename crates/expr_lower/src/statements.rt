//! Steps as statements.

ghost use Rattle.std.specs.Prelude.{◌≡◌, ◌++◌, IfOk};
ghost use Rattle.expr_lower.specs.Statements as spec;

use crate::places::{AggregatePlace, ColumnPlace, Places};
use dict_codes::Dictionary;
use expr_steps::{Source, Step, expr_steps};
use io_edge::{Name, NoMemory};
use key_paths::Path;
use programs::{Op, Operand, PairArgs, Statement};
use std::alloc::Global;
use typed_trees::{ColumnRef, TypedExpr, same_column};

fn out_path(alloc: Global) -> Result<Path, NoMemory>
    ensures { IfOk result (λ p. p ≡ spec.out) }
{
    Path::of(alloc, ".out")
}

/// The path of a column.
pub fn column_path(
    alloc: Global,
    columns: &[ColumnPlace],
    column: ColumnRef,
) -> Result<Path, NoMemory>
    ensures { IfOk result (λ p. p ≡ spec.column_path columns.now column) }
{
    for place in columns {
        if same_column(place.column, column) {
            return place.path.copied(alloc);
        }
    }
    out_path(alloc)
}

/// The path of an aggregate.
fn aggregate_path(
    alloc: Global,
    aggregates: &[AggregatePlace],
    aggregate: u32,
) -> Result<Path, NoMemory>
    ensures { IfOk result (λ p. p ≡ spec.aggregate_path aggregates.now aggregate) }
{
    for place in aggregates {
        if place.aggregate == aggregate {
            return place.path.copied(alloc);
        }
    }
    out_path(alloc)
}

fn numbered(alloc: Global, stem: &Name, k: usize) -> Result<Name, NoMemory>
    ensures { IfOk result (λ n. n ≡ spec.numbered stem.now k) }
{
    let stem = stem.text();
    let text = format!(in alloc; "{stem}_n{k}")?;
    Ok(Name::from_string(text))
}

/// The name of the vector that holds an expression's value.
pub fn value_name(alloc: Global, stem: &Name) -> Result<Name, NoMemory>
    ensures { IfOk result (λ n. n ≡ spec.value_name stem.now) }
{
    let stem = stem.text();
    let text = format!(in alloc; "{stem}_value")?;
    Ok(Name::from_string(text))
}

fn name_of(alloc: Global, stem: &Name, last: usize, k: usize) -> Result<Name, NoMemory>
    ensures { IfOk result (λ n. n ≡ spec.name_of stem.now last k) }
{
    if k == last {
        value_name(alloc, stem)
    } else {
        numbered(alloc, stem, k)
    }
}

/// An attribute of a vector.
fn attribute(vector: Name, path: Path) -> Operand
    ensures { result ≡ Operand.Column vector path }
{
    Operand::Column(vector, path)
}

/// What stands where a step reads it.
fn operand_of(
    alloc: Global,
    vector: &Name,
    mark: &Path,
    places: &Places,
    stem: &Name,
    source: Source,
) -> Result<Operand, NoMemory>
    ensures { IfOk result (λ x. x ≡ spec.operand_of (spec.site vector.now mark.now places.now.columns.items places.now.aggregates.items stem.now) source) }
{
    match source {
        Source::Mark => Ok(attribute(vector.copied(alloc)?, mark.copied(alloc)?)),
        Source::Column(column) => Ok(attribute(
            vector.copied(alloc)?,
            column_path(alloc, places.columns.as_slice(), column)?,
        )),
        Source::Aggregate(aggregate) => Ok(attribute(
            vector.copied(alloc)?,
            aggregate_path(alloc, places.aggregates.as_slice(), aggregate)?,
        )),
        Source::Made(k) => Ok(attribute(numbered(alloc, stem, k)?, out_path(alloc)?)),
        Source::Number(z) => Ok(Operand::Number(z)),
    }
}

fn statement_of(
    alloc: Global,
    vector: &Name,
    mark: &Path,
    places: &Places,
    stem: &Name,
    name: Name,
    step: Step,
) -> Result<Statement, NoMemory>
    ensures { IfOk result (λ s. s ≡ spec.statement_of (spec.site vector.now mark.now places.now.columns.items places.now.aggregates.items stem.now) name step) }
{
    let x = operand_of(alloc, vector, mark, places, stem, step.x)?;
    let y = operand_of(alloc, vector, mark, places, stem, step.y)?;
    let out = out_path(alloc)?;
    let op = Op::of_pair(step.kind, PairArgs { x, y, out });
    Ok(Statement { name, op })
}

/// The statements that give the value of an expression at `.out` of the vector that is named by the stem and `_value`, at each
/// place of `vector` whose mark is nonempty: a truth as 1 or 0, a date as its day, a text as its code, and a null as nothing.
pub fn expr_statements(
    alloc: Global,
    e: &TypedExpr,
    vector: &Name,
    mark: &Path,
    places: &Places,
    dictionary: &Dictionary,
    stem: &Name,
) -> Result<Vec<Statement>, NoMemory>
    ensures { IfOk result (λ v. v.items ≡ spec.expr_statements (spec.site vector.now mark.now places.now.columns.items places.now.aggregates.items stem.now) dictionary.now e.now) }
{
    let steps = expr_steps(alloc, e, dictionary)?;
    statements(alloc, vector, mark, places, stem, steps.as_slice())
}

/// Steps as statements, the last one under the value's name.
fn statements(
    alloc: Global,
    vector: &Name,
    mark: &Path,
    places: &Places,
    stem: &Name,
    steps: &[Step],
) -> Result<Vec<Statement>, NoMemory>
    ensures { IfOk result (λ v. v.items ≡ spec.statements (spec.site vector.now mark.now places.now.columns.items places.now.aggregates.items stem.now) steps.now) }
{
    let mut all = Vec::new(alloc);
    let last = steps.len().saturating_sub(1);
    for i in 0..steps.len() {
        let name = name_of(alloc, stem, last, i)?;
        let statement = statement_of(alloc, vector, mark, places, stem, name, steps[i])?;
        all.push(statement)?;
    }
    Ok(all)
}
