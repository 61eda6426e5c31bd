//! The pieces that the code of an expression is made of.

ghost use Rattle.std.specs.Prelude.{◌≡◌, ◌≤◌, ◌^◌, IfOk, pos};
ghost use Rattle.control_vectors.specs.Slots.{in_128_bits};
ghost use Rattle.dict_codes.specs.Dictionaries.{is_among};
ghost use Rattle.expr_steps.specs.Codes.{Appends, from_source, one};
ghost use Rattle.expr_steps.specs.Lowered as spec;

use crate::steps::{Factors, Source, Step};
use control_vectors::PairKind;
use dict_codes::Dictionary;
use io_edge::NoMemory;
use query_trees::{BinaryOp, Polarity, Sign};

/// One step more.
pub fn put(steps: &mut Vec<Step>, kind: PairKind, x: Source, y: Source) -> Result<Source, NoMemory>
    ensures { IfOk result (Appends (one kind x y) steps.old.items steps.new.items) }
{
    let k = steps.len();
    steps.push(Step { kind, x, y })?;
    Ok(Source::Made(k))
}

/// 0 or 1 at each marked place.
pub fn truth_source(holds: bool) -> Source
    ensures { result ≡ spec.truth_source holds }
{
    if holds {
        Source::Made(1)
    } else {
        Source::Made(0)
    }
}

/// A truth that is known, at the places where both operands stand.
pub fn known(steps: &mut Vec<Step>, holds: bool, a: Source, b: Source) -> Result<Source, NoMemory>
    ensures { IfOk result (Appends (spec.known holds a b) steps.old.items steps.new.items) }
{
    let first = put(steps, PairKind::Fill, truth_source(holds), a)?;
    put(steps, PairKind::Fill, first, b)
}

/// 0 of 1, and 1 of 0.
pub fn opposite(steps: &mut Vec<Step>, x: Source) -> Result<Source, NoMemory>
    ensures { IfOk result (Appends (spec.opposite x) steps.old.items steps.new.items) }
{
    put(steps, PairKind::Equals, x, Source::Number(0))
}

/// A truth, or its opposite where NOT stands before the predicate.
pub fn by_polarity(steps: &mut Vec<Step>, polarity: Polarity, x: Source) -> Result<Source, NoMemory>
    ensures { IfOk result (Appends (spec.by_polarity polarity x) steps.old.items steps.new.items) }
{
    match polarity {
        Polarity::Plain => Ok(x),
        Polarity::Negated => opposite(steps, x),
    }
}

/// The opposite of a truth, or itself where NOT stands before the predicate.
pub fn unless_negated(
    steps: &mut Vec<Step>,
    polarity: Polarity,
    x: Source,
) -> Result<Source, NoMemory>
    ensures { IfOk result (Appends (spec.unless_negated polarity x) steps.old.items steps.new.items) }
{
    match polarity {
        Polarity::Plain => opposite(steps, x),
        Polarity::Negated => Ok(x),
    }
}

/// A number at each marked place.
pub fn constant(steps: &mut Vec<Step>, z: i128) -> Result<Source, NoMemory>
    ensures { IfOk result (Appends (spec.constant z) steps.old.items steps.new.items) }
{
    put(steps, PairKind::Add, Source::Made(0), Source::Number(z))
}

/// A number of a query as one of 128 bits.
pub fn written(digits: u128) -> i128
    ensures { result ≡ pos (spec.written digits) }
{
    digits.min(170141183460469231731687303715884105727) as i128
}

/// Where a text stands among the codes.
pub fn text_number(dictionary: &Dictionary, text: &str) -> i128
    ensures { result ≡ spec.text_number dictionary.now text.now }
{
    let (rank, is_among) = dictionary.rank(text);
    if is_among {
        i128::from(rank)
    } else {
        2 * i128::from(rank) - 1
    }
}

/// A number of a query at each marked place.
pub fn number_constant(steps: &mut Vec<Step>, digits: u128) -> Result<Source, NoMemory>
    ensures { IfOk result (Appends (spec.constant (pos (spec.written digits))) steps.old.items steps.new.items) }
{
    constant(steps, written(digits))
}

/// A text literal at each marked place.
pub fn text_constant(
    steps: &mut Vec<Step>,
    dictionary: &Dictionary,
    text: &str,
) -> Result<Source, NoMemory>
    ensures { IfOk result (Appends (spec.constant (spec.text_number dictionary.now text.now)) steps.old.items steps.new.items) }
{
    constant(steps, text_number(dictionary, text))
}

/// A day at each marked place.
pub fn date_constant(steps: &mut Vec<Step>, day: i32) -> Result<Source, NoMemory>
    ensures { IfOk result (Appends (spec.constant day) steps.old.items steps.new.items) }
{
    constant(steps, i128::from(day))
}

/// A divisor with its sign.
pub fn divisor(sign: Sign, digits: u128) -> i128
    ensures { result ≡ spec.divisor sign digits }
{
    match sign {
        Sign::Plus => written(digits),
        Sign::Minus => 0 - written(digits),
    }
}

/// A quotient.
pub fn divided(
    steps: &mut Vec<Step>,
    sign: Sign,
    digits: u128,
    x: Source,
) -> Result<Source, NoMemory>
    ensures { IfOk result (Appends (spec.divided sign digits x) steps.old.items steps.new.items) }
{
    put(
        steps,
        PairKind::Divide,
        x,
        Source::Number(divisor(sign, digits)),
    )
}

pub fn sign_step(steps: &mut Vec<Step>, sign: Sign, x: Source) -> Result<Source, NoMemory>
    ensures { IfOk result (Appends (spec.sign_step sign x) steps.old.items steps.new.items) }
{
    match sign {
        Sign::Plus => put(steps, PairKind::Add, Source::Number(0), x),
        Sign::Minus => put(steps, PairKind::Subtract, Source::Number(0), x),
    }
}

/// A product with a number, or nothing to do where that is 1.
pub fn times(steps: &mut Vec<Step>, factor: i128, x: Source) -> Result<Source, NoMemory>
    ensures { IfOk result (Appends (spec.times factor x) steps.old.items steps.new.items) }
{
    if factor == 1 {
        Ok(x)
    } else {
        put(steps, PairKind::Multiply, x, Source::Number(factor))
    }
}

/// 10 to this power, where it has 128 bits.
#[tactic(auto, using(control_vectors::proofs::NumberLaws::in_128_bits_from_SomeIff))]
fn narrow_power(n: u32) -> Option<i128>
    ensures { result ≡ in_128_bits (pos (10 ^ n)) }
{
    10i128.checked_pow(n)
}

#[tactic(auto, using(crate::proofs::Powers::power_fits))]
fn power_of_ten(n: u32) -> i128
    requires { n ≤ 37 }
    ensures { result ≡ pos (10 ^ n) }
{
    match narrow_power(n) {
        Some(power) => power,
        None => unreachable!(),
    }
}

/// What a number of one scale is multiplied by, so that it has a greater one.
pub fn raise(to: u32, scale: u32) -> i128
    requires { to ≤ 37 }
    ensures { result ≡ spec.raise to scale }
{
    power_of_ten(to.saturating_sub(scale))
}

/// What two numbers are multiplied by, so that they have one scale.
pub fn between_scales(s: u32, t: u32) -> Factors
    requires first { s ≤ 37 }
    requires second { t ≤ 37 }
    ensures { result ≡ spec.between_scales s t }
{
    let to = s.max(t);
    Factors {
        x: raise(to, s),
        y: raise(to, t),
    }
}

/// How far the codes are apart beside a text literal.
pub fn steps_a_code(dictionary: &Dictionary, text: &str) -> i128
    ensures { result ≡ spec.steps_a_code (is_among dictionary.now text.now) }
{
    let (_, is_among) = dictionary.rank(text);
    if is_among { 1 } else { 2 }
}

/// A comparison of numbers, days or codes.
pub fn comparing(
    steps: &mut Vec<Step>,
    op: BinaryOp,
    x: Source,
    y: Source,
) -> Result<Source, NoMemory>
    ensures { IfOk result (Appends (spec.comparing op x y) steps.old.items steps.new.items) }
{
    match op {
        BinaryOp::Equal => put(steps, PairKind::Equals, x, y),
        BinaryOp::Differs => {
            let same = put(steps, PairKind::Equals, x, y)?;
            opposite(steps, same)
        }
        BinaryOp::Less => put(steps, PairKind::Greater, y, x),
        BinaryOp::LessEqual => {
            let above = put(steps, PairKind::Greater, x, y)?;
            opposite(steps, above)
        }
        BinaryOp::Greater => put(steps, PairKind::Greater, x, y),
        _ => {
            let below = put(steps, PairKind::Greater, y, x)?;
            opposite(steps, below)
        }
    }
}

/// A comparison of two operands that are brought together first.
pub fn brought_to_compare(
    steps: &mut Vec<Step>,
    factors: Factors,
    op: BinaryOp,
    a: Source,
    b: Source,
) -> Result<Source, NoMemory>
    ensures { IfOk result (Appends (spec.brought_together factors a b (spec.comparing op)) steps.old.items steps.new.items) }
{
    let x = times(steps, factors.x, a)?;
    let y = times(steps, factors.y, b)?;
    comparing(steps, op, x, y)
}

/// A sum or a difference of two operands that are brought together first.
pub fn brought_to_add(
    steps: &mut Vec<Step>,
    factors: Factors,
    kind: PairKind,
    a: Source,
    b: Source,
) -> Result<Source, NoMemory>
    ensures { IfOk result (Appends (spec.brought_together factors a b (one kind)) steps.old.items steps.new.items) }
{
    let x = times(steps, factors.x, a)?;
    let y = times(steps, factors.y, b)?;
    put(steps, kind, x, y)
}

/// Whether a value is null, or is not.
pub fn null_test(steps: &mut Vec<Step>, polarity: Polarity, x: Source) -> Result<Source, NoMemory>
    ensures { IfOk result (Appends (spec.null_test polarity x) steps.old.items steps.new.items) }
{
    match polarity {
        Polarity::Plain => {
            let there = put(steps, PairKind::Greater, x, x)?;
            put(steps, PairKind::Fill, there, Source::Made(1))
        }
        Polarity::Negated => {
            let there = put(steps, PairKind::Equals, x, x)?;
            put(steps, PairKind::Fill, there, Source::Made(0))
        }
    }
}
