//! Control plans.

ghost use Rattle.std.specs.Prelude.{◌≡◌, ◌<◌, ◌≤◌, ◌^◌, ◌++◌, ◌∷◌, [], length, IfOk, OnOk, OnErr};
ghost use Rattle.std.specs.Option.{SomeIff};
ghost use Rattle.control_plan.specs.Plans.{IsPlan, constant, plan_of, usual};

use crate::NoMemory;
use crate::choices::{Grouping, Kernel, Split};
use control_vectors::ControlVector;
use std::alloc::Global;
use std::marker::Model;

/// How many levels a plan has at most.
const LEVELS: usize = 4;

/// The longest piece.
const LONGEST: u32 = 1 << 20;

/// How a query is to be computed. No choice changes its answer.
#[derive(Drop)]
pub struct ControlPlan {
    select: ControlVector,
    layout: Option<ControlVector>,
    levels: Vec<ControlVector>,
    group: Grouping,
    kernel: Kernel,
    split: Split,
    piece: u32,
}

impl Model for ControlPlan {
    ghost use Rattle.control_plan.specs.Plans.{PlanValue, IsPlan, plan_of};

    ghost Value = { PlanValue };

    ghost view = { λ p. plan_of p.select p.layout p.levels.items p.group p.kernel p.split p.piece };

    ghost invariant = { λ p. IsPlan (plan_of p.select p.layout p.levels.items p.group p.kernel p.split p.piece) };
}

impl ControlPlan {
    /// The plan of these choices, where it has at most 4 levels and a piece of 1 to 2^20.
    pub fn new(
        select: ControlVector,
        layout: Option<ControlVector>,
        levels: Vec<ControlVector>,
        group: Grouping,
        kernel: Kernel,
        split: Split,
        piece: u32,
    ) -> Option<ControlPlan>
        ensures { SomeIff result (IsPlan (plan_of select layout levels.items group kernel split piece))
            (plan_of select layout levels.items group kernel split piece) }
    {
        if LEVELS < levels.len() || piece < 1 || LONGEST < piece {
            return None;
        }
        Some(ControlPlan {
            select,
            layout,
            levels,
            group,
            kernel,
            split,
            piece,
        })
    }

    /// The plan where none is given: each fold of one run, whole, by a loop; groups by a sort; pieces of 4,096.
    pub fn usual(alloc: Global) -> Result<ControlPlan, NoMemory>
        ensures { IfOk result (λ p. p ≡ usual) }
    {
        Ok(ControlPlan {
            select: zeros(),
            layout: None,
            levels: Vec::new(alloc),
            group: Grouping::Sort,
            kernel: Kernel::Scalar,
            split: Split::Even,
            piece: 4096,
        })
    }

    /// The runs in which rows are selected.
    pub fn select(&self) -> ControlVector
        ensures select { result ≡ self.now.select }
        ensures within { IsPlan self.now }
    {
        self.select
    }

    /// By what rows are partitioned before they are aggregated; `None` where they stay as they are.
    pub fn layout(&self) -> Option<ControlVector>
        ensures layout { result ≡ self.now.layout }
        ensures within { IsPlan self.now }
    {
        self.layout
    }

    /// The runs of the folds that each aggregate passes before its last, in order.
    pub fn levels(&self) -> &[ControlVector]
        ensures levels { result.now ≡ self.now.levels }
        ensures within { IsPlan self.now }
    {
        self.levels.as_slice()
    }

    /// How the rows of a group are brought together.
    pub fn group(&self) -> Grouping
        ensures group { result ≡ self.now.group }
        ensures within { IsPlan self.now }
    {
        self.group
    }

    /// What evaluates folds.
    pub fn kernel(&self) -> Kernel
        ensures kernel { result ≡ self.now.kernel }
        ensures within { IsPlan self.now }
    {
        self.kernel
    }

    /// How the work is split between workers.
    pub fn split(&self) -> Split
        ensures split { result ≡ self.now.split }
        ensures within { IsPlan self.now }
    {
        self.split
    }

    /// How many slots a piece of work has.
    pub fn piece(&self) -> u32
        ensures piece { result ≡ self.now.piece }
        ensures within { IsPlan self.now }
    {
        self.piece
    }

    /// Selects rows in other runs.
    pub fn set_select(&mut self, select: ControlVector)
        ensures { self.new ≡ record self.old { select = select } }
    {
        self.select = select;
    }

    /// Partitions rows before they are aggregated.
    pub fn set_layout(&mut self, layout: ControlVector)
        ensures { self.new ≡ record self.old { layout = Some layout } }
    {
        self.layout = Some(layout);
    }

    /// A level more, after those that there are. Where memory runs out the plan stays as it was.
    pub fn push_level(&mut self, level: ControlVector) -> Result<(), NoMemory>
        requires { length self.old.levels < 4 }
        ensures pushed { OnOk result (self.new ≡ record self.old { levels = self.old.levels ++ level ∷ [] }) }
        ensures kept { OnErr result (self.new ≡ self.old) }
    {
        self.levels.push(level)?;
        Ok(())
    }

    /// Brings the rows of a group together in another way.
    pub fn set_group(&mut self, group: Grouping)
        ensures { self.new ≡ record self.old { group = group } }
    {
        self.group = group;
    }

    /// Lets something else evaluate folds.
    pub fn set_kernel(&mut self, kernel: Kernel)
        ensures { self.new ≡ record self.old { kernel = kernel } }
    {
        self.kernel = kernel;
    }

    /// Splits the work in another way.
    pub fn set_split(&mut self, split: Split)
        ensures { self.new ≡ record self.old { split = split } }
    {
        self.split = split;
    }

    /// Has pieces of another length.
    pub fn set_piece(&mut self, piece: u32)
        requires from { 1 ≤ piece }
        requires to { piece ≤ 2 ^ 20 }
        ensures { self.new ≡ record self.old { piece = piece } }
    {
        self.piece = piece;
    }
}

/// The control vector that is 0 everywhere.
fn zeros() -> ControlVector
    ensures { result ≡ constant }
{
    match ControlVector::new(0, 0, 0, 1) {
        Some(control) => control,
        None => unreachable!(),
    }
}
