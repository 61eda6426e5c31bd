//! The statements of a program.

ghost use Rattle.std.specs.Prelude.{◌≡◌};

use crate::order_keys::OrderKeys;
use control_vectors::ControlVector;
use io_edge::Name;
use key_paths::Path;
use std::marker::Model;

/// How long a vector is to be: a number of slots, or as long as the named vector.
#[derive(Drop)]
pub enum Size {
    Number(u32),
    Of(Name),
}

/// What a slot-wise operator reads: an attribute of a vector, or one number for every slot.
#[derive(Drop)]
pub enum Operand {
    Column(Name, Path),
    Number(i128),
}

/// The two operands of a slot-wise operator, and the attribute that it makes.
#[derive(Drop)]
pub struct PairArgs {
    pub x: Operand,
    pub y: Operand,
    pub out: Path,
}

/// What a fold reads and makes: the values at `val` of the vector `a`, in runs of what stands at or
/// below `run`, folded into the attribute `out`.
#[derive(Drop)]
pub struct FoldArgs {
    pub a: Name,
    pub val: Path,
    pub run: Path,
    pub out: Path,
}

/// What a Bucket or a Partition reads and makes: the keys at `key` of the vector `a` beside the pivots
/// at `pivot` of the vector `b`, and the attribute `out`.
#[derive(Drop)]
pub struct RankArgs {
    pub a: Name,
    pub key: Path,
    pub b: Name,
    pub pivot: Path,
    pub out: Path,
}

/// An operator with its arguments, in the order of the algebra's text.
#[derive(Drop)]
pub enum Op {
    Load {
        table: Name,
    },
    Persist {
        a: Name,
    },
    Range {
        size: Size,
        out: Path,
        control: ControlVector,
    },
    Cross {
        a: Name,
        p: Path,
        b: Name,
        q: Path,
    },
    Zip {
        a: Name,
        b: Name,
    },
    Project {
        a: Name,
        p: Path,
        q: Path,
    },
    Upsert {
        a: Name,
        p: Path,
        b: Name,
        q: Path,
    },
    Gather {
        a: Name,
        b: Name,
        pos: Path,
    },
    Scatter {
        a: Name,
        size: Size,
        b: Name,
        pos: Path,
    },
    Bucket(RankArgs),
    Partition(RankArgs),
    Materialize {
        a: Name,
    },
    Break {
        a: Name,
    },
    FoldSum(FoldArgs),
    FoldMin(FoldArgs),
    FoldMax(FoldArgs),
    FoldSelect(FoldArgs),
    FoldScan(FoldArgs),
    Order {
        a: Name,
        mark: Path,
        out: Path,
        keys: OrderKeys,
    },
    Add(PairArgs),
    Subtract(PairArgs),
    Multiply(PairArgs),
    Divide(PairArgs),
    Modulo(PairArgs),
    BitShift {
        x: Operand,
        by: i32,
        out: Path,
    },
    Greater(PairArgs),
    Equals(PairArgs),
    LogicalAnd(PairArgs),
    LogicalOr(PairArgs),
    Fill(PairArgs),
}

/// `name = op`. The name of a `Persist` is the result's.
#[derive(Drop)]
pub struct Statement {
    pub name: Name,
    pub op: Op,
}

/// Why a program is refused before it runs.
#[derive(Clone, Copy, Debug, PartialEq, Eq)]
pub enum ProgramKind {
    /// It has more than 65,536 statements.
    TooManyStatements,
    /// No earlier statement makes a vector of that name, or no table has it.
    UnknownName,
    /// A path that is no attribute; where a path names a run, nothing at or below it.
    NoSuchPath,
    /// Both operands are numbers, so that the vector has no length.
    NoLength,
    /// Two attributes with one path, or one below the other; an attribute at the root.
    PathClash,
    /// A path of more than eight segments.
    TooDeep,
    /// An order with more than sixteen keys.
    TooManyKeys,
    /// A second vector of one name, or a second result.
    NameTwice,
    /// No result is named.
    NoPersist,
}

/// Statements, which are read in order. Contracts see the list of them.
#[derive(Drop)]
pub struct Program {
    statements: Vec<Statement>,
}

impl Model for Program {
    ghost use Rattle.std.specs.Prelude.{List};
    ghost use Rattle.programs.specs.declared.op.Statement.{Statement};

    ghost Value = { List Statement };

    ghost view = { λ p. p.statements.items };
}

impl Program {
    /// The program of these statements.
    pub fn new(statements: Vec<Statement>) -> Program
        ensures { result ≡ statements.items }
    {
        Program { statements }
    }

    /// Its statements, in order.
    pub fn statements(&self) -> &[Statement]
        ensures { result.now ≡ self.now }
    {
        self.statements.as_slice()
    }
}
