//! The operators' words.

ghost use Rattle.std.specs.Prelude.{◌≡◌, map};
ghost use Rattle.voodoo_text.specs.Operators as spec;

use control_vectors::PairKind;
use programs::{FoldOperator, RankOperator};

/// An operator that shares its arguments with no other one.
#[derive(Clone, Copy)]
pub enum SingleOperator {
    Load,
    Cross,
    Zip,
    Project,
    Upsert,
    Gather,
    Scatter,
    Materialize,
    Break,
    Order,
    BitShift,
}

/// What makes a vector. A Persist makes none.
#[derive(Clone, Copy)]
pub enum Operator {
    Range,
    Single(SingleOperator),
    Rank(RankOperator),
    Fold(FoldOperator),
    Pair(PairKind),
}

/// Each operator by its word.
const OPERATORS: [(&[u8], Operator); 29] = [
    (b"Load", Operator::Single(SingleOperator::Load)),
    (b"Range", Operator::Range),
    (b"Cross", Operator::Single(SingleOperator::Cross)),
    (b"Zip", Operator::Single(SingleOperator::Zip)),
    (b"Project", Operator::Single(SingleOperator::Project)),
    (b"Upsert", Operator::Single(SingleOperator::Upsert)),
    (b"Gather", Operator::Single(SingleOperator::Gather)),
    (b"Scatter", Operator::Single(SingleOperator::Scatter)),
    (b"Bucket", Operator::Rank(RankOperator::Bucket)),
    (b"Partition", Operator::Rank(RankOperator::Partition)),
    (
        b"Materialize",
        Operator::Single(SingleOperator::Materialize),
    ),
    (b"Break", Operator::Single(SingleOperator::Break)),
    (b"FoldSum", Operator::Fold(FoldOperator::Sum)),
    (b"FoldMin", Operator::Fold(FoldOperator::Min)),
    (b"FoldMax", Operator::Fold(FoldOperator::Max)),
    (b"FoldSelect", Operator::Fold(FoldOperator::Select)),
    (b"FoldScan", Operator::Fold(FoldOperator::Scan)),
    (b"Order", Operator::Single(SingleOperator::Order)),
    (b"Add", Operator::Pair(PairKind::Add)),
    (b"Subtract", Operator::Pair(PairKind::Subtract)),
    (b"Multiply", Operator::Pair(PairKind::Multiply)),
    (b"Divide", Operator::Pair(PairKind::Divide)),
    (b"Modulo", Operator::Pair(PairKind::Modulo)),
    (b"BitShift", Operator::Single(SingleOperator::BitShift)),
    (b"Greater", Operator::Pair(PairKind::Greater)),
    (b"Equals", Operator::Pair(PairKind::Equals)),
    (b"LogicalAnd", Operator::Pair(PairKind::LogicalAnd)),
    (b"LogicalOr", Operator::Pair(PairKind::LogicalOr)),
    (b"Fill", Operator::Pair(PairKind::Fill)),
];

/// The operator of a table that a word names.
fn lookup(mut table: &[(&[u8], Operator)], word: &[u8]) -> Option<Operator>
    ensures { result ≡ spec.lookup (map (λ o. (o.0.now, o.1)) table.entry.now) word.now }
{
    while let [entry, rest @ ..] = table {
        if entry.0 == word {
            return Some(entry.1);
        }
        table = rest;
    }
    None
}

/// The operator that a word names.
#[tactic(auto, unfolding(crate::specs::Operators::operator_of))]
pub(crate) fn operator_of(word: &[u8]) -> Option<Operator>
    ensures { result ≡ spec.operator_of word.now }
{
    lookup(&OPERATORS, word)
}

/// The word of a slot-wise operator.
pub(crate) fn pair_word(kind: PairKind) -> &'static [u8]
    ensures { result.now ≡ spec.pair_word kind }
{
    match kind {
        PairKind::Add => b"Add",
        PairKind::Subtract => b"Subtract",
        PairKind::Multiply => b"Multiply",
        PairKind::Divide => b"Divide",
        PairKind::Modulo => b"Modulo",
        PairKind::Greater => b"Greater",
        PairKind::Equals => b"Equals",
        PairKind::LogicalAnd => b"LogicalAnd",
        PairKind::LogicalOr => b"LogicalOr",
        PairKind::Fill => b"Fill",
    }
}

/// The word of a fold.
pub(crate) fn fold_word(kind: FoldOperator) -> &'static [u8]
    ensures { result.now ≡ spec.fold_word kind }
{
    match kind {
        FoldOperator::Sum => b"FoldSum",
        FoldOperator::Min => b"FoldMin",
        FoldOperator::Max => b"FoldMax",
        FoldOperator::Select => b"FoldSelect",
        FoldOperator::Scan => b"FoldScan",
    }
}

/// The word of a Bucket or a Partition.
pub(crate) fn rank_word(kind: RankOperator) -> &'static [u8]
    ensures { result.now ≡ spec.rank_word kind }
{
    match kind {
        RankOperator::Bucket => b"Bucket",
        RankOperator::Partition => b"Partition",
    }
}
