//! The parts of a condition that AND joins.

ghost use Rattle.std.specs.Prelude.{◌≡◌, [], ◌∷◌, ◌++◌, Ok, OnOk};
ghost use Rattle.query_types.specs.Conjuncts as spec;
ghost use Rattle.query_types.specs.Outcomes.{Gives};

use crate::refusal::TypeRefusal;
use query_trees::BinaryOp;
use sql_read::Listing;
use typed_trees::TypedExpr;

fn is_and(op: BinaryOp) -> bool
    ensures { result ≡ spec.is_and op }
{
    match op {
        BinaryOp::And => true,
        _ => false,
    }
}

fn add(all: &mut Listing<TypedExpr>, e: TypedExpr) -> Result<(), TypeRefusal>
    ensures given { OnOk result (all.new ≡ all.old ++ e ∷ []) }
    ensures only { Gives (Ok tt) result }
{
    all.push(e)?;
    Ok(())
}

/// Adds the parts of a condition, from left to right.
pub fn add_parts(all: &mut Listing<TypedExpr>, e: TypedExpr) -> Result<(), TypeRefusal>
    ensures given { OnOk result (all.new ≡ all.old ++ spec.parts e) }
    ensures only { Gives (Ok tt) result }
{
    match e {
        TypedExpr::Binary(op, x, y) => {
            if !is_and(op) {
                return add(all, TypedExpr::Binary(op, x, y));
            }
            add_parts(all, x.into_inner())?;
            add_parts(all, y.into_inner())
        }
        other => add(all, other),
    }
}
