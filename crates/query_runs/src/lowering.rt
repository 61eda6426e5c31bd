//! The program of a query, and its results.

ghost use Rattle.std.specs.Prelude.{◌≡◌, ◌≤◌, IfErr, IfOk, Ok, None, length};
ghost use Rattle.control_plan.specs.Plans.{usual};
ghost use Rattle.programs.specs.Check.{check, limit_of};
ghost use Rattle.programs.specs.Outlines.{outlines};
ghost use Rattle.programs.specs.Vectors.{seen_all, tables};
ghost use Rattle.voodoo_ops.specs.Meaning.{meaning};
ghost use Rattle.plan_programs.specs.Lowered.{lowered};
ghost use Rattle.lowered_answers.specs.Laws.{PassesCheck};
ghost use Rattle.rel_plan.specs.Plans as plans;
ghost use Rattle.rel_plan.specs.Pushes.{pushed};
ghost use Rattle.run_steps.specs.Inputs.{IsRunRefusal};
ghost use Rattle.run_steps.specs.Outcomes.{Meets};
ghost use Rattle.run_steps.specs.Steps.{results_outcome};
ghost use Rattle.query_runs.specs.Runs.{query_plan, query_program};

use control_plan::ControlPlan;
use io_edge::NoMemory;
use plan_lower::lower;
use programs::ProgramRefusal;
use rel_plan::{RelPlan, plan, prune, push_filters};
use run_steps::{Runnable, Status, results_of};
use std::alloc::{AllocError, Global};
use table_load::Database;
use typed_trees::TypedQuery;
use voodoo_ops::Results;

/// The plan of a query, with its conditions at the tables that they test and without the columns that nothing names.
pub(crate) fn plan_of_query(alloc: Global, q: &TypedQuery) -> Result<RelPlan, NoMemory>
    requires planned { length (plans.plan_of q.now).sources ≤ 8 }
    requires pushed { length (pushed (plans.plan_of q.now)).sources ≤ 8 }
    ensures { IfOk result (λ p. p ≡ query_plan q.now) }
{
    let planned = plan(alloc, q)?;
    let pushed = push_filters(alloc, planned)?;
    prune(alloc, pushed)
}

/// The results of a plan's program.
pub(crate) fn results_of_plan(alloc: Global, p: &RelPlan, db: &Database) -> Result<Results, Status>
    requires { PassesCheck db.now usual.select p.now }
    ensures results { Meets seen_all result (results_outcome (meaning (tables db.now.store) (lowered usual.select db.now p.now))) }
    ensures kind { IfErr result IsRunRefusal }
{
    let runnable = runnable_of_plan(alloc, p, db)?;
    results_of(alloc, &runnable, db.store())
}

/// A plan's program, with its shape.
fn runnable_of_plan(alloc: Global, p: &RelPlan, db: &Database) -> Result<Runnable, NoMemory>
    requires { PassesCheck db.now usual.select p.now }
    ensures program { IfOk result (λ r. r.program ≡ lowered usual.select db.now p.now) }
    ensures checked { IfOk result (λ r. check (outlines (tables db.now.store)) r.program ≡ Ok r.shape) }
    ensures short { IfOk result (λ r. limit_of r.shape ≡ None) }
{
    let choices = ControlPlan::usual(alloc)?;
    let program = lower(alloc, p, &choices, db)?;
    match program.check(alloc, db.store()) {
        Ok(shape) => Ok(Runnable { program, shape }),
        Err(ProgramRefusal::NoMemory) => Err(AllocError),
        // The program of every such plan passes the check.
        Err(ProgramRefusal::Bad { .. }) => unreachable!(),
    }
}
