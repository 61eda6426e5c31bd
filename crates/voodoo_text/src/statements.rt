//! The statements, each on a line of its own.

ghost use Rattle.std.specs.Prelude.{◌≡◌, Ok, IfOk, IfSome};
ghost use Rattle.std.specs.Option.{option_map};
ghost use Rattle.phrases.specs.Parsers.{Reads, Ends};
ghost use Rattle.voodoo_text.specs.Statements as spec;
ghost use Rattle.voodoo_text.specs.Spelled.{IsName, OpHasNames, PairHasNames, RankHasNames, StatementHasNames};

use crate::kind::{Kind, same_kind};
use crate::line::Line;
use crate::operator::{Operator, SingleOperator, operator_of};
use crate::places::{
    attribute, expect, keys, name, next_attribute, next_control, next_name, next_operand,
    next_path, next_shift, next_size, operand, refused, size,
};
use crate::refusal::TextKind;
use crate::{NoMemory, values};
use phrases::ReadError;
use programs::{FoldArgs, Op, PairArgs, RankArgs, Statement};
use std::alloc::Global;

/// `Load(table)`
#[tactic(auto, unfolding(crate::specs::Statements::load))]
fn load(alloc: Global, line: &mut Line) -> Result<Op, ReadError<TextKind>>
    ensures value { Reads (spec.load line.old) result line.new }
    ensures names { IfOk result OpHasNames }
{
    let table = name(alloc, line)?;
    Ok(Op::Load { table })
}

/// `Range(size, out, start, step, modulus, divisor)`; none where the four numbers are not admissible.
#[tactic(auto, unfolding(crate::specs::Statements::range))]
fn range(alloc: Global, line: &mut Line) -> Result<Option<Op>, ReadError<TextKind>>
    ensures value { Reads (spec.range line.old) result line.new }
    ensures names { IfOk result (λ made. IfSome made OpHasNames) }
{
    let size = size(alloc, line)?;
    let out = next_path(alloc, line)?;
    match next_control(line)? {
        Some(control) => Ok(Some(Op::Range { size, out, control })),
        None => Ok(None),
    }
}

/// `Cross(a, p, b, q)`
#[tactic(auto, unfolding(crate::specs::Statements::cross))]
fn cross(alloc: Global, line: &mut Line) -> Result<Op, ReadError<TextKind>>
    ensures value { Reads (spec.cross line.old) result line.new }
    ensures names { IfOk result OpHasNames }
{
    let first = attribute(alloc, line)?;
    let second = next_attribute(alloc, line)?;
    Ok(Op::Cross {
        a: first.vector,
        p: first.path,
        b: second.vector,
        q: second.path,
    })
}

/// `Zip(a, b)`
#[tactic(auto, unfolding(crate::specs::Statements::zip))]
fn zip(alloc: Global, line: &mut Line) -> Result<Op, ReadError<TextKind>>
    ensures value { Reads (spec.zip line.old) result line.new }
    ensures names { IfOk result OpHasNames }
{
    let a = name(alloc, line)?;
    let b = next_name(alloc, line)?;
    Ok(Op::Zip { a, b })
}

/// `Project(a, p, q)`
#[tactic(auto, unfolding(crate::specs::Statements::project))]
fn project(alloc: Global, line: &mut Line) -> Result<Op, ReadError<TextKind>>
    ensures value { Reads (spec.project line.old) result line.new }
    ensures names { IfOk result OpHasNames }
{
    let from = attribute(alloc, line)?;
    let q = next_path(alloc, line)?;
    Ok(Op::Project {
        a: from.vector,
        p: from.path,
        q,
    })
}

/// `Upsert(a, p, b, q)`
#[tactic(auto, unfolding(crate::specs::Statements::upsert))]
fn upsert(alloc: Global, line: &mut Line) -> Result<Op, ReadError<TextKind>>
    ensures value { Reads (spec.upsert line.old) result line.new }
    ensures names { IfOk result OpHasNames }
{
    let first = attribute(alloc, line)?;
    let second = next_attribute(alloc, line)?;
    Ok(Op::Upsert {
        a: first.vector,
        p: first.path,
        b: second.vector,
        q: second.path,
    })
}

/// `Gather(a, b, pos)`
#[tactic(auto, unfolding(crate::specs::Statements::gather))]
fn gather(alloc: Global, line: &mut Line) -> Result<Op, ReadError<TextKind>>
    ensures value { Reads (spec.gather line.old) result line.new }
    ensures names { IfOk result OpHasNames }
{
    let a = name(alloc, line)?;
    let at = next_attribute(alloc, line)?;
    Ok(Op::Gather {
        a,
        b: at.vector,
        pos: at.path,
    })
}

/// `Scatter(a, size, b, pos)`
#[tactic(auto, unfolding(crate::specs::Statements::scatter))]
fn scatter(alloc: Global, line: &mut Line) -> Result<Op, ReadError<TextKind>>
    ensures value { Reads (spec.scatter line.old) result line.new }
    ensures names { IfOk result OpHasNames }
{
    let a = name(alloc, line)?;
    let size = next_size(alloc, line)?;
    let at = next_attribute(alloc, line)?;
    Ok(Op::Scatter {
        a,
        size,
        b: at.vector,
        pos: at.path,
    })
}

/// The arguments of a Bucket or a Partition.
#[tactic(auto, unfolding(crate::specs::Statements::rank))]
fn rank(alloc: Global, line: &mut Line) -> Result<RankArgs, ReadError<TextKind>>
    ensures value { Reads (spec.rank line.old) result line.new }
    ensures names { IfOk result RankHasNames }
{
    let keys = attribute(alloc, line)?;
    let pivots = next_attribute(alloc, line)?;
    let out = next_path(alloc, line)?;
    Ok(RankArgs {
        a: keys.vector,
        key: keys.path,
        b: pivots.vector,
        pivot: pivots.path,
        out,
    })
}

/// `Materialize(a)`
#[tactic(auto, unfolding(crate::specs::Statements::materialize))]
fn materialize(alloc: Global, line: &mut Line) -> Result<Op, ReadError<TextKind>>
    ensures value { Reads (spec.materialize line.old) result line.new }
    ensures names { IfOk result OpHasNames }
{
    let a = name(alloc, line)?;
    Ok(Op::Materialize { a })
}

/// `Break(a)`
#[tactic(auto, unfolding(crate::specs::Statements::break_))]
fn break_(alloc: Global, line: &mut Line) -> Result<Op, ReadError<TextKind>>
    ensures value { Reads (spec.break_ line.old) result line.new }
    ensures names { IfOk result OpHasNames }
{
    let a = name(alloc, line)?;
    Ok(Op::Break { a })
}

/// The arguments of a fold.
#[tactic(auto, unfolding(crate::specs::Statements::fold))]
fn fold(alloc: Global, line: &mut Line) -> Result<FoldArgs, ReadError<TextKind>>
    ensures value { Reads (spec.fold line.old) result line.new }
    ensures names { IfOk result (λ args. IsName args.a) }
{
    let values = attribute(alloc, line)?;
    let run = next_path(alloc, line)?;
    let out = next_path(alloc, line)?;
    Ok(FoldArgs {
        a: values.vector,
        val: values.path,
        run,
        out,
    })
}

/// `Order(a, mark, out, keys)`
#[tactic(auto, unfolding(crate::specs::Statements::order))]
fn order(alloc: Global, line: &mut Line) -> Result<Op, ReadError<TextKind>>
    ensures value { Reads (spec.order line.old) result line.new }
    ensures names { IfOk result OpHasNames }
{
    let marks = attribute(alloc, line)?;
    let out = next_path(alloc, line)?;
    let keys = keys(alloc, line)?;
    Ok(Op::Order {
        a: marks.vector,
        mark: marks.path,
        out,
        keys,
    })
}

/// The arguments of an operator that works slot by slot.
#[tactic(auto, unfolding(crate::specs::Statements::pair))]
fn pair(alloc: Global, line: &mut Line) -> Result<PairArgs, ReadError<TextKind>>
    ensures value { Reads (spec.pair line.old) result line.new }
    ensures names { IfOk result PairHasNames }
{
    let x = operand(alloc, line)?;
    let y = next_operand(alloc, line)?;
    let out = next_path(alloc, line)?;
    Ok(PairArgs { x, y, out })
}

/// `BitShift(x, by, out)`
#[tactic(auto, unfolding(crate::specs::Statements::bit_shift))]
fn bit_shift(alloc: Global, line: &mut Line) -> Result<Op, ReadError<TextKind>>
    ensures value { Reads (spec.bit_shift line.old) result line.new }
    ensures names { IfOk result OpHasNames }
{
    let x = operand(alloc, line)?;
    let by = next_shift(line)?;
    let out = next_path(alloc, line)?;
    Ok(Op::BitShift { x, by, out })
}

/// An operator that shares its arguments with no other one.
#[tactic(auto, unfolding(crate::specs::Statements::single))]
fn single(
    alloc: Global,
    line: &mut Line,
    operator: SingleOperator,
) -> Result<Op, ReadError<TextKind>>
    ensures value { Reads (spec.single operator line.old) result line.new }
    ensures names { IfOk result OpHasNames }
{
    match operator {
        SingleOperator::Load => load(alloc, line),
        SingleOperator::Cross => cross(alloc, line),
        SingleOperator::Zip => zip(alloc, line),
        SingleOperator::Project => project(alloc, line),
        SingleOperator::Upsert => upsert(alloc, line),
        SingleOperator::Gather => gather(alloc, line),
        SingleOperator::Scatter => scatter(alloc, line),
        SingleOperator::Materialize => materialize(alloc, line),
        SingleOperator::Break => break_(alloc, line),
        SingleOperator::Order => order(alloc, line),
        SingleOperator::BitShift => bit_shift(alloc, line),
    }
}

/// An operator with its arguments; none where it is a Range that is not admissible.
#[tactic(auto, unfolding(crate::specs::Statements::arguments))]
fn arguments(
    alloc: Global,
    line: &mut Line,
    operator: Operator,
) -> Result<Option<Op>, ReadError<TextKind>>
    ensures value { Reads (spec.arguments operator line.old) result line.new }
    ensures names { IfOk result (λ made. IfSome made OpHasNames) }
{
    match operator {
        Operator::Range => range(alloc, line),
        Operator::Single(operator) => {
            let op = single(alloc, line, operator)?;
            Ok(Some(op))
        }
        Operator::Rank(kind) => {
            let args = rank(alloc, line)?;
            Ok(Some(Op::of_rank(kind, args)))
        }
        Operator::Fold(kind) => {
            let args = fold(alloc, line)?;
            Ok(Some(Op::of_fold(kind, args)))
        }
        Operator::Pair(kind) => {
            let args = pair(alloc, line)?;
            Ok(Some(Op::of_pair(kind, args)))
        }
    }
}

/// The operator that the next token names.
#[tactic(auto, unfolding(crate::specs::Statements::operator))]
fn operator(line: &mut Line) -> Result<Operator, ReadError<TextKind>>
    ensures { Reads (spec.operator line.old) result line.new }
{
    match line.take() {
        Some(token) if same_kind(token.kind, Kind::Name) => match operator_of(token.word) {
            Some(operator) => Ok(operator),
            None => Err(ReadError::Refused(TextKind::Unexpected, line.left() + 1)),
        },
        Some(token) => Err(refused(&token, line)),
        None => Err(ReadError::Refused(TextKind::Unexpected, 0)),
    }
}

/// The statement that gives a name to what an operator makes.
fn named(alloc: Global, word: &[u8], op: Option<Op>) -> Result<Option<Statement>, NoMemory>
    requires word { IsName word.now }
    requires names { IfSome op OpHasNames }
    ensures value { IfOk result (λ made. made ≡ option_map (spec.statement word.now) op) }
    ensures names { IfOk result (λ made. IfSome made StatementHasNames) }
{
    let Some(op) = op else {
        return Ok(None);
    };
    match values::name(alloc, word) {
        Ok(name) => Ok(Some(Statement { name, op })),
        Err(error) => {
            drop(op);
            Err(error)
        }
    }
}

/// `name = Op(arguments)`, after the name.
#[tactic(auto, unfolding(crate::specs::Statements::assigned))]
fn assigned(
    alloc: Global,
    line: &mut Line,
    word: &[u8],
) -> Result<Option<Statement>, ReadError<TextKind>>
    requires { IsName word.now }
    ensures value { Reads (spec.assigned word.now line.old) result line.new }
    ensures names { IfOk result (λ made. IfSome made StatementHasNames) }
{
    expect(line, Kind::Equal)?;
    let operator = operator(line)?;
    expect(line, Kind::Open)?;
    let op = arguments(alloc, line, operator)?;
    match expect(line, Kind::Close) {
        Ok(_close) => Ok(named(alloc, word, op)?),
        Err(error) => {
            drop(op);
            Err(error)
        }
    }
}

/// `Persist(name, v)`, after the word.
#[tactic(auto, unfolding(crate::specs::Statements::persisted))]
fn persisted(alloc: Global, line: &mut Line) -> Result<Option<Statement>, ReadError<TextKind>>
    ensures value { Reads (spec.persisted line.old) result line.new }
    ensures names { IfOk result (λ made. IfSome made StatementHasNames) }
{
    expect(line, Kind::Open)?;
    let name = name(alloc, line)?;
    let a = next_name(alloc, line)?;
    expect(line, Kind::Close)?;
    let op = Op::Persist { a };
    Ok(Some(Statement { name, op }))
}

/// Whether a Persist begins: its word, and then a parenthesis.
fn begins_persist(word: &[u8], line: &Line) -> bool
    ensures { result ≡ spec.begins_persist word.now line.now }
{
    if word == b"Persist".as_slice() {
        line.is_next(Kind::Open)
    } else {
        false
    }
}

/// A statement, after its first word.
#[tactic(auto, unfolding(crate::specs::Statements::after_word))]
fn after_word(
    alloc: Global,
    line: &mut Line,
    word: &[u8],
) -> Result<Option<Statement>, ReadError<TextKind>>
    requires { IsName word.now }
    ensures value { Reads (spec.after_word word.now line.old) result line.new }
    ensures names { IfOk result (λ made. IfSome made StatementHasNames) }
{
    if begins_persist(word, line) {
        persisted(alloc, line)
    } else {
        assigned(alloc, line, word)
    }
}

/// A statement; none where it is a Range that is not admissible.
#[tactic(auto, unfolding(crate::specs::Statements::statement_of))]
fn statement(alloc: Global, line: &mut Line) -> Result<Option<Statement>, ReadError<TextKind>>
    ensures value { Reads (spec.statement_of line.old) result line.new }
    ensures names { IfOk result (λ made. IfSome made StatementHasNames) }
{
    let word = expect(line, Kind::Name)?;
    after_word(alloc, line, word)
}

/// Nothing stands behind a statement.
#[tactic(auto, unfolding(crate::specs::Statements::at_end))]
fn at_end(line: &mut Line) -> Result<(), ReadError<TextKind>>
    ensures { Reads (spec.at_end line.old) result line.new }
{
    match line.take() {
        Some(token) => Err(refused(&token, line)),
        None => Ok(()),
    }
}

/// The statement, unless it is a Range that is not admissible.
fn admissible(made: Option<Statement>) -> Result<Statement, ReadError<TextKind>>
    requires { IfSome made StatementHasNames }
    ensures value { result ≡ spec.admissible made }
    ensures names { IfOk result StatementHasNames }
{
    match made {
        Some(statement) => Ok(statement),
        None => Err(ReadError::Refused(TextKind::NotAdmissible, 0)),
    }
}

/// The statement of a line.
#[tactic(auto, unfolding(crate::specs::Statements::line_of))]
pub(crate) fn line_of(alloc: Global, line: &mut Line) -> Result<Statement, ReadError<TextKind>>
    ensures value { Ends (spec.line_of line.old) result }
    ensures names { IfOk result StatementHasNames }
{
    let made = statement(alloc, line)?;
    match at_end(line) {
        Ok(()) => admissible(made),
        Err(error) => {
            drop(made);
            Err(error)
        }
    }
}
