//! Operators by family: those of one family take the same arguments, and are checked in the same way.

ghost use Rattle.std.specs.Prelude.{◌≡◌};
ghost use Rattle.programs.specs.Families as spec;
ghost use Rattle.programs.specs.Families.{fold_of, lent, pair_of, rank_of};
ghost use Rattle.programs.specs.Mentions.{is_persist};

use crate::{FoldArgs, Op, Operand, OrderKeys, PairArgs, RankArgs, Size};
use control_vectors::{ControlVector, PairKind};
use io_edge::Name;
use key_paths::Path;

/// An operator that folds values in runs.
#[derive(Clone, Copy)]
pub enum FoldOperator {
    Sum,
    Min,
    Max,
    Select,
    Scan,
}

/// An operator that ranks keys among pivots.
#[derive(Clone, Copy)]
pub enum RankOperator {
    Bucket,
    Partition,
}

/// An operator by its family, with its arguments as the operator has them.
#[derive(Clone, Copy)]
pub enum Family<'a> {
    Load {
        table: &'a Name,
    },
    Persist {
        a: &'a Name,
    },
    Range {
        size: &'a Size,
        out: &'a Path,
        control: ControlVector,
    },
    Cross {
        a: &'a Name,
        p: &'a Path,
        b: &'a Name,
        q: &'a Path,
    },
    Zip {
        a: &'a Name,
        b: &'a Name,
    },
    Project {
        a: &'a Name,
        p: &'a Path,
        q: &'a Path,
    },
    Upsert {
        a: &'a Name,
        p: &'a Path,
        b: &'a Name,
        q: &'a Path,
    },
    Gather {
        a: &'a Name,
        b: &'a Name,
        pos: &'a Path,
    },
    Scatter {
        a: &'a Name,
        size: &'a Size,
        b: &'a Name,
        pos: &'a Path,
    },
    /// Bucket and Partition.
    Rank(RankOperator, &'a RankArgs),
    Materialize {
        a: &'a Name,
    },
    Break {
        a: &'a Name,
    },
    /// FoldSum, FoldMin, FoldMax, FoldSelect and FoldScan.
    Fold(FoldOperator, &'a FoldArgs),
    Order {
        a: &'a Name,
        mark: &'a Path,
        out: &'a Path,
        keys: &'a OrderKeys,
    },
    /// The slot-wise operators on two operands.
    Pair(PairKind, &'a PairArgs),
    BitShift {
        x: &'a Operand,
        by: i32,
        out: &'a Path,
    },
}

impl Op {
    /// Its family, with its arguments.
    pub fn family(&self) -> Family<'_>
        ensures { lent result ≡ spec.family self.now }
    {
        match self {
            Op::Load { table } => Family::Load { table },
            Op::Persist { a } => Family::Persist { a },
            Op::Range { size, out, control } => Family::Range {
                size,
                out,
                control: *control,
            },
            Op::Cross { a, p, b, q } => Family::Cross { a, p, b, q },
            Op::Zip { a, b } => Family::Zip { a, b },
            Op::Project { a, p, q } => Family::Project { a, p, q },
            Op::Upsert { a, p, b, q } => Family::Upsert { a, p, b, q },
            Op::Gather { a, b, pos } => Family::Gather { a, b, pos },
            Op::Scatter { a, size, b, pos } => Family::Scatter { a, size, b, pos },
            Op::Bucket(args) => Family::Rank(RankOperator::Bucket, args),
            Op::Partition(args) => Family::Rank(RankOperator::Partition, args),
            Op::Materialize { a } => Family::Materialize { a },
            Op::Break { a } => Family::Break { a },
            Op::FoldSum(args) => Family::Fold(FoldOperator::Sum, args),
            Op::FoldMin(args) => Family::Fold(FoldOperator::Min, args),
            Op::FoldMax(args) => Family::Fold(FoldOperator::Max, args),
            Op::FoldSelect(args) => Family::Fold(FoldOperator::Select, args),
            Op::FoldScan(args) => Family::Fold(FoldOperator::Scan, args),
            Op::Order { a, mark, out, keys } => Family::Order { a, mark, out, keys },
            Op::Add(args) => Family::Pair(PairKind::Add, args),
            Op::Subtract(args) => Family::Pair(PairKind::Subtract, args),
            Op::Multiply(args) => Family::Pair(PairKind::Multiply, args),
            Op::Divide(args) => Family::Pair(PairKind::Divide, args),
            Op::Modulo(args) => Family::Pair(PairKind::Modulo, args),
            Op::BitShift { x, by, out } => Family::BitShift { x, by: *by, out },
            Op::Greater(args) => Family::Pair(PairKind::Greater, args),
            Op::Equals(args) => Family::Pair(PairKind::Equals, args),
            Op::LogicalAnd(args) => Family::Pair(PairKind::LogicalAnd, args),
            Op::LogicalOr(args) => Family::Pair(PairKind::LogicalOr, args),
            Op::Fill(args) => Family::Pair(PairKind::Fill, args),
        }
    }

    /// Whether it names a result.
    pub fn persists(&self) -> bool
        ensures { result ≡ is_persist self.now }
    {
        match self.family() {
            Family::Persist { .. } => true,
            _ => false,
        }
    }

    /// A slot-wise operator with its arguments.
    pub fn of_pair(kind: PairKind, args: PairArgs) -> Op
        ensures value { result ≡ pair_of kind args }
        ensures family { spec.family result ≡ spec.Pair kind args }
    {
        match kind {
            PairKind::Add => Op::Add(args),
            PairKind::Subtract => Op::Subtract(args),
            PairKind::Multiply => Op::Multiply(args),
            PairKind::Divide => Op::Divide(args),
            PairKind::Modulo => Op::Modulo(args),
            PairKind::Greater => Op::Greater(args),
            PairKind::Equals => Op::Equals(args),
            PairKind::LogicalAnd => Op::LogicalAnd(args),
            PairKind::LogicalOr => Op::LogicalOr(args),
            PairKind::Fill => Op::Fill(args),
        }
    }

    /// A fold with its arguments.
    pub fn of_fold(kind: FoldOperator, args: FoldArgs) -> Op
        ensures value { result ≡ fold_of kind args }
        ensures family { spec.family result ≡ spec.Fold kind args }
    {
        match kind {
            FoldOperator::Sum => Op::FoldSum(args),
            FoldOperator::Min => Op::FoldMin(args),
            FoldOperator::Max => Op::FoldMax(args),
            FoldOperator::Select => Op::FoldSelect(args),
            FoldOperator::Scan => Op::FoldScan(args),
        }
    }

    /// A Bucket or a Partition with its arguments.
    pub fn of_rank(kind: RankOperator, args: RankArgs) -> Op
        ensures value { result ≡ rank_of kind args }
        ensures family { spec.family result ≡ spec.Rank kind args }
    {
        match kind {
            RankOperator::Bucket => Op::Bucket(args),
            RankOperator::Partition => Op::Partition(args),
        }
    }
}
