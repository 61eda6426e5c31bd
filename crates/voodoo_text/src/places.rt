//! What may stand in one place of a statement.

ghost use Rattle.std.specs.Prelude.{◌≡◌, ◌≢◌, ◌+◌, ◌≤◌, ◌<◌, ◌≤ℤ◌, ◌^◌, ◌-◌, pos, neg_ℤ, [], ◌∷◌, ◌++◌, length, Ok, Err, IfOk, MatchResult};
ghost use Rattle.phrases.specs.Parsers.{Reads};
ghost use Rattle.phrases.specs.declared.refusal.ReadError.TheVariants as error;
ghost use Rattle.voodoo_text.specs.Kinds as kinds;
ghost use Rattle.voodoo_text.specs.declared.kind.Kind.TheVariants as k;
ghost use Rattle.voodoo_text.specs.Places as spec;
ghost use Rattle.voodoo_text.specs.Tokens.{HasForm};
ghost use Rattle.voodoo_text.specs.Spelled.{IsName, IsShift, SizeHasName, OperandHasName};
ghost use Rattle.voodoo_text.specs.Values as spelled;

use crate::kind::{Kind, fault_of, same_kind};
use crate::line::{Line, Token};
use crate::refusal::TextKind;
use crate::{NoMemory, values};
use control_vectors::ControlVector;
use io_edge::Name;
use key_paths::Path;
use phrases::ReadError;
use programs::{Operand, OrderKeys, OrderPath, Size};
use std::alloc::Global;

/// The refusal of a token, behind which the rest of the line stands.
pub(crate) fn refused(token: &Token, line: &Line) -> ReadError<TextKind>
    ensures { result ≡ error.Refused (kinds.fault_of token.now.kind) (length line.now + 1) }
{
    ReadError::Refused(fault_of(token.kind), line.left() + 1)
}

/// The bytes of the next token, which is of the kind.
#[tactic(auto, unfolding(crate::specs::Places::expect))]
pub(crate) fn expect<'a>(line: &mut Line<'a>, kind: Kind) -> Result<&'a [u8], ReadError<TextKind>>
    ensures value { MatchResult result (λ word. spec.expect kind line.old ≡ Ok (word.now, line.new)) (λ e. spec.expect kind line.old ≡ Err e) }
    ensures form { IfOk result (λ word. HasForm kind word.now) }
{
    match line.take() {
        Some(token) if same_kind(token.kind, kind) => Ok(token.word),
        Some(token) => Err(refused(&token, line)),
        None => Err(ReadError::Refused(TextKind::Unexpected, 0)),
    }
}

/// A name.
pub(crate) fn name(alloc: Global, line: &mut Line) -> Result<Name, ReadError<TextKind>>
    ensures value { Reads (spec.name line.old) result line.new }
    ensures form { IfOk result IsName }
{
    let word = expect(line, Kind::Name)?;
    Ok(values::name(alloc, word)?)
}

/// A path.
pub(crate) fn path(alloc: Global, line: &mut Line) -> Result<Path, ReadError<TextKind>>
    ensures { Reads (spec.path line.old) result line.new }
{
    let word = expect(line, Kind::Path)?;
    Ok(values::path(alloc, word)?)
}

/// A path that directly follows a name.
fn attached(alloc: Global, line: &mut Line) -> Result<Path, ReadError<TextKind>>
    ensures { Reads (spec.expect k.Attached line.old) result line.new }
{
    let word = expect(line, Kind::Attached)?;
    Ok(values::path(alloc, word)?)
}

/// A name after a comma.
pub(crate) fn next_name(alloc: Global, line: &mut Line) -> Result<Name, ReadError<TextKind>>
    ensures value { Reads (spec.next spec.name line.old) result line.new }
    ensures form { IfOk result IsName }
{
    expect(line, Kind::Comma)?;
    name(alloc, line)
}

/// A path after a comma.
pub(crate) fn next_path(alloc: Global, line: &mut Line) -> Result<Path, ReadError<TextKind>>
    ensures { Reads (spec.next spec.path line.old) result line.new }
{
    expect(line, Kind::Comma)?;
    path(alloc, line)
}

/// An attribute, by its vector's name and its path.
#[derive(Drop)]
pub struct VectorPath {
    pub vector: Name,
    pub path: Path,
}

/// A name, and a path after a comma.
#[tactic(auto, unfolding(crate::specs::Places::attribute))]
pub(crate) fn attribute(alloc: Global, line: &mut Line) -> Result<VectorPath, ReadError<TextKind>>
    ensures value { Reads (spec.attribute line.old) result line.new }
    ensures form { IfOk result (λ v. IsName v.vector) }
{
    let vector = name(alloc, line)?;
    let path = next_path(alloc, line)?;
    Ok(VectorPath { vector, path })
}

/// An attribute after a comma.
pub(crate) fn next_attribute(
    alloc: Global,
    line: &mut Line,
) -> Result<VectorPath, ReadError<TextKind>>
    ensures value { Reads (spec.next spec.attribute line.old) result line.new }
    ensures form { IfOk result (λ v. IsName v.vector) }
{
    expect(line, Kind::Comma)?;
    attribute(alloc, line)
}

/// A number from `-least` to `most`.
#[tactic(auto, unfolding(crate::specs::Places::number))]
pub(crate) fn integer(line: &mut Line, least: u128, most: u128) -> Result<i128, ReadError<TextKind>>
    requires least { least ≤ 2 ^ 127 }
    requires most { most < 2 ^ 127 }
    ensures value { Reads (spec.number (spelled.integer_within least most) line.old) result line.new }
    ensures range { IfOk result (λ z. (neg_ℤ (pos least) ≤ℤ z) × (z ≤ℤ pos most)) }
{
    match line.take() {
        Some(token) if same_kind(token.kind, Kind::Number) => {
            match values::integer_within(token.word, least, most) {
                Some(z) => Ok(z),
                None => Err(ReadError::Refused(TextKind::BadNumber, line.left() + 1)),
            }
        }
        Some(token) => Err(refused(&token, line)),
        None => Err(ReadError::Refused(TextKind::Unexpected, 0)),
    }
}

/// A number from 0 to `most`.
#[tactic(auto, unfolding(crate::specs::Places::number))]
pub(crate) fn natural(line: &mut Line, most: u128) -> Result<u128, ReadError<TextKind>>
    requires { most ≤ 2 ^ 127 }
    ensures value { Reads (spec.number (spelled.natural_within most) line.old) result line.new }
    ensures range { IfOk result (λ n. n ≤ most) }
{
    match line.take() {
        Some(token) if same_kind(token.kind, Kind::Number) => {
            match values::natural_within(token.word, most) {
                Some(n) => Ok(n),
                None => Err(ReadError::Refused(TextKind::BadNumber, line.left() + 1)),
            }
        }
        Some(token) => Err(refused(&token, line)),
        None => Err(ReadError::Refused(TextKind::Unexpected, 0)),
    }
}

/// A vector's name, directly followed by a path.
#[tactic(auto, unfolding(crate::specs::Places::column))]
fn column(alloc: Global, line: &mut Line) -> Result<Operand, ReadError<TextKind>>
    ensures value { Reads (spec.column line.old) result line.new }
    ensures names { IfOk result OperandHasName }
{
    let vector = name(alloc, line)?;
    let path = attached(alloc, line)?;
    Ok(Operand::Column(vector, path))
}

/// An operand of a slot-wise operator.
#[tactic(auto, unfolding(crate::specs::Places::operand))]
pub(crate) fn operand(alloc: Global, line: &mut Line) -> Result<Operand, ReadError<TextKind>>
    ensures value { Reads (spec.operand line.old) result line.new }
    ensures names { IfOk result OperandHasName }
{
    if line.is_next(Kind::Name) {
        column(alloc, line)
    } else {
        let z = integer(line, 1 << 127, (1 << 127) - 1)?;
        Ok(Operand::Number(z))
    }
}

/// A vector's name, or a number of 32 bits.
#[tactic(auto, unfolding(crate::specs::Places::size))]
pub(crate) fn size(alloc: Global, line: &mut Line) -> Result<Size, ReadError<TextKind>>
    ensures value { Reads (spec.size line.old) result line.new }
    ensures names { IfOk result SizeHasName }
{
    if line.is_next(Kind::Name) {
        let vector = name(alloc, line)?;
        Ok(Size::Of(vector))
    } else {
        let n = natural(line, 0xffff_ffff)?;
        Ok(Size::Number(n as u32))
    }
}

/// A size after a comma.
pub(crate) fn next_size(alloc: Global, line: &mut Line) -> Result<Size, ReadError<TextKind>>
    ensures value { Reads (spec.next spec.size line.old) result line.new }
    ensures names { IfOk result SizeHasName }
{
    expect(line, Kind::Comma)?;
    size(alloc, line)
}

/// An operand after a comma.
pub(crate) fn next_operand(alloc: Global, line: &mut Line) -> Result<Operand, ReadError<TextKind>>
    ensures value { Reads (spec.next spec.operand line.old) result line.new }
    ensures names { IfOk result OperandHasName }
{
    expect(line, Kind::Comma)?;
    operand(alloc, line)
}

/// The start of a Range.
fn start(line: &mut Line) -> Result<i64, ReadError<TextKind>>
    ensures { Reads (spec.number (spelled.integer_within (2 ^ 63) (2 ^ 63 - 1)) line.old) result line.new }
{
    let z = integer(line, 1 << 63, (1 << 63) - 1)?;
    Ok(z as i64)
}

/// The step, the modulus or the divisor of a Range, after a comma.
fn next_step(line: &mut Line) -> Result<u64, ReadError<TextKind>>
    ensures { Reads (spec.next (spec.number (spelled.natural_within (2 ^ 64 - 1))) line.old) result line.new }
{
    expect(line, Kind::Comma)?;
    let n = natural(line, 0xffff_ffff_ffff_ffff)?;
    Ok(n as u64)
}

/// The four numbers of a control vector; none where they are not admissible.
#[tactic(auto, unfolding(crate::specs::Places::control))]
fn control(line: &mut Line) -> Result<Option<ControlVector>, ReadError<TextKind>>
    ensures { Reads (spec.control line.old) result line.new }
{
    let start = start(line)?;
    let step = next_step(line)?;
    let modulus = next_step(line)?;
    let divisor = next_step(line)?;
    Ok(values::admitted(start, step, modulus, divisor))
}

/// A control vector after a comma.
pub(crate) fn next_control(line: &mut Line) -> Result<Option<ControlVector>, ReadError<TextKind>>
    ensures { Reads (spec.next spec.control line.old) result line.new }
{
    expect(line, Kind::Comma)?;
    control(line)
}

/// By how many bits to shift, after a comma.
pub(crate) fn next_shift(line: &mut Line) -> Result<i32, ReadError<TextKind>>
    ensures value { Reads (spec.next (spec.number (spelled.integer_within 127 127)) line.old) result line.new }
    ensures range { IfOk result IsShift }
{
    expect(line, Kind::Comma)?;
    let z = integer(line, 127, 127)?;
    Ok(z as i32)
}

/// Whether a key descends, by its sign.
#[tactic(auto, unfolding(crate::specs::Places::descends))]
fn descends(line: &mut Line) -> Result<bool, ReadError<TextKind>>
    ensures { Reads (spec.descends line.old) result line.new }
{
    if line.is_next(Kind::Minus) {
        expect(line, Kind::Minus)?;
        Ok(true)
    } else {
        expect(line, Kind::Plus)?;
        Ok(false)
    }
}

/// A key of an Order.
#[tactic(auto, unfolding(crate::specs::Places::key))]
fn key(alloc: Global, line: &mut Line) -> Result<OrderPath, ReadError<TextKind>>
    ensures { Reads (spec.key line.old) result line.new }
{
    let descending = descends(line)?;
    let path = path(alloc, line)?;
    Ok(OrderPath { path, descending })
}

/// Appends a key.
fn append_key(keys: &mut Vec<OrderPath>, key: OrderPath) -> Result<(), NoMemory>
    ensures { IfOk result (λ _. keys.new.items ≡ keys.old.items ++ key ∷ []) }
{
    Ok(keys.push(key)?)
}

/// Appends the key after a comma.
#[tactic(auto, unfolding(crate::specs::Places::another_key))]
fn another_key(
    alloc: Global,
    line: &mut Line,
    keys: &mut Vec<OrderPath>,
) -> Result<(), ReadError<TextKind>>
    ensures { MatchResult result (λ _. spec.another_key keys.old.items line.old ≡ Ok (keys.new.items, line.new)) (λ e. e ≢ error.NoMemory → spec.another_key keys.old.items line.old ≡ Err e) }
{
    expect(line, Kind::Comma)?;
    let last = key(alloc, line)?;
    Ok(append_key(keys, last)?)
}

/// The keys of an Order, each after a comma.
#[tactic(auto, unfolding(crate::specs::Places::keys))]
pub(crate) fn keys(alloc: Global, line: &mut Line) -> Result<OrderKeys, ReadError<TextKind>>
    ensures { Reads (spec.keys line.old) result line.new }
{
    let mut keys = Vec::new(alloc);
    for _turn in 0..line.left() {
        if !line.is_next(Kind::Comma) {
            return Ok(OrderKeys::new(keys));
        }
        another_key(alloc, line, &mut keys)?;
    }
    Ok(OrderKeys::new(keys))
}
