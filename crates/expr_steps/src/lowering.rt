//! From an expression to steps.

ghost use Rattle.std.specs.Prelude.{◌≡◌, ◌≤◌, IfOk, map};
ghost use Rattle.std.specs.Option.{option_map};
ghost use Rattle.sql_values.specs.Texts.{by_bytes};
ghost use Rattle.typed_trees.specs.Scales.{scale_of};
ghost use Rattle.typed_values.specs.Narrow.{counted};
ghost use Rattle.typed_values.specs.Values.{holds};
ghost use Rattle.expr_steps.specs.Codes.{Appends, and_then};
ghost use Rattle.expr_steps.specs.Lowered as spec;

use crate::pieces::{
    between_scales, brought_to_add, brought_to_compare, by_polarity, date_constant, divided, known,
    null_test, number_constant, opposite, put, raise, sign_step, steps_a_code, text_constant,
    times, truth_source, unless_negated,
};
use crate::scales::{greatest_scale, scale};
use crate::steps::{Factors, Source, Step};
use control_vectors::PairKind;
use dict_codes::Dictionary;
use io_edge::{Name, NoMemory};
use query_trees::{BinaryOp, Polarity};
use std::alloc::Global;
use typed_trees::TypedExpr;

/// The bytes of a text literal.
#[tactic(auto, unfolding(crate::specs::Lowered::literal_of))]
fn literal_of(e: &TypedExpr) -> Option<&Name>
    ensures { option_map (λ t. t.now) result ≡ spec.literal_of e.now }
{
    match e {
        TypedExpr::Text(text) => Some(text),
        _ => None,
    }
}

/// What two operands of a comparison are multiplied by.
fn factors(dictionary: &Dictionary, x: &TypedExpr, y: &TypedExpr) -> Factors
    ensures { result ≡ spec.factors dictionary.now (spec.part_of dictionary.now x.now) (spec.part_of dictionary.now y.now) }
{
    match (literal_of(x), literal_of(y)) {
        (Some(a), _) => Factors {
            x: 1,
            y: steps_a_code(dictionary, a.text()),
        },
        (None, Some(b)) => Factors {
            x: steps_a_code(dictionary, b.text()),
            y: 1,
        },
        (None, None) => between_scales(scale(x), scale(y)),
    }
}

/// Whether a comparison holds of two texts.
fn holds(op: BinaryOp, a: &str, b: &str) -> bool
    ensures { result ≡ holds op (by_bytes a.now b.now) }
{
    let order = a.cmp(b);
    match op {
        BinaryOp::Equal => order.is_eq(),
        BinaryOp::Differs => !order.is_eq(),
        BinaryOp::Less => order.is_lt(),
        BinaryOp::LessEqual => !order.is_gt(),
        BinaryOp::Greater => order.is_gt(),
        _ => !order.is_lt(),
    }
}

/// A comparison of two operands whose values stand at `a` and `b`.
fn compared(
    steps: &mut Vec<Step>,
    dictionary: &Dictionary,
    op: BinaryOp,
    x: &TypedExpr,
    y: &TypedExpr,
    a: Source,
    b: Source,
) -> Result<Source, NoMemory>
    ensures { IfOk result (Appends (spec.compared dictionary.now op (spec.part_of dictionary.now x.now) (spec.part_of dictionary.now y.now) a b) steps.old.items steps.new.items) }
{
    match (literal_of(x), literal_of(y)) {
        (Some(s), Some(t)) => known(steps, holds(op, s.text(), t.text()), a, b),
        _ => brought_to_compare(steps, factors(dictionary, x, y), op, a, b),
    }
}

/// A binary operator of two operands whose values stand at `a` and `b`.
fn binary(
    steps: &mut Vec<Step>,
    dictionary: &Dictionary,
    op: BinaryOp,
    x: &TypedExpr,
    y: &TypedExpr,
    a: Source,
    b: Source,
) -> Result<Source, NoMemory>
    ensures { IfOk result (Appends (spec.binary dictionary.now op (spec.part_of dictionary.now x.now) (spec.part_of dictionary.now y.now) a b) steps.old.items steps.new.items) }
{
    match op {
        BinaryOp::Or => put(steps, PairKind::LogicalOr, a, b),
        BinaryOp::And => put(steps, PairKind::LogicalAnd, a, b),
        BinaryOp::Add => brought_to_add(
            steps,
            between_scales(scale(x), scale(y)),
            PairKind::Add,
            a,
            b,
        ),
        BinaryOp::Subtract => brought_to_add(
            steps,
            between_scales(scale(x), scale(y)),
            PairKind::Subtract,
            a,
            b,
        ),
        BinaryOp::Multiply => put(steps, PairKind::Multiply, a, b),
        _ => compared(steps, dictionary, op, x, y, a, b),
    }
}

/// Whether a value lies below the least or above the greatest that it may be.
fn outside(
    steps: &mut Vec<Step>,
    dictionary: &Dictionary,
    x: &TypedExpr,
    least: &TypedExpr,
    most: &TypedExpr,
    a: Source,
    b: Source,
    c: Source,
) -> Result<Source, NoMemory>
    ensures { IfOk result (Appends (spec.outside dictionary.now (spec.part_of dictionary.now x.now) (spec.part_of dictionary.now least.now) (spec.part_of dictionary.now most.now) a b c) steps.old.items steps.new.items) }
{
    let below = compared(steps, dictionary, BinaryOp::Less, x, least, a, b)?;
    let above = compared(steps, dictionary, BinaryOp::Greater, x, most, a, c)?;
    put(steps, PairKind::LogicalOr, below, above)
}

/// BETWEEN, or NOT BETWEEN.
fn between(
    steps: &mut Vec<Step>,
    dictionary: &Dictionary,
    polarity: Polarity,
    x: &TypedExpr,
    least: &TypedExpr,
    most: &TypedExpr,
    a: Source,
    b: Source,
    c: Source,
) -> Result<Source, NoMemory>
    ensures { IfOk result (Appends (and_then (spec.outside dictionary.now (spec.part_of dictionary.now x.now) (spec.part_of dictionary.now least.now) (spec.part_of dictionary.now most.now) a b c) (spec.unless_negated polarity)) steps.old.items steps.new.items) }
{
    let is_outside = outside(steps, dictionary, x, least, most, a, b, c)?;
    unless_negated(steps, polarity, is_outside)
}

/// One more operand of IN, whose value stands at `b`, behind what is found so far.
fn or_equal(
    steps: &mut Vec<Step>,
    dictionary: &Dictionary,
    x: &TypedExpr,
    y: &TypedExpr,
    a: Source,
    b: Source,
    found: Source,
) -> Result<Source, NoMemory>
    ensures { IfOk result (Appends (spec.found_equal dictionary.now (spec.part_of dictionary.now x.now) a (spec.part_of dictionary.now y.now) found b) steps.old.items steps.new.items) }
{
    let same = compared(steps, dictionary, BinaryOp::Equal, x, y, a, b)?;
    put(steps, PairKind::LogicalOr, found, same)
}

/// Whether a value that stands at `a` is equal to one of the others. Where there are none, a step reads it all the same.
#[cycle(lowering)]
fn lower_among(
    steps: &mut Vec<Step>,
    dictionary: &Dictionary,
    others: &[TypedExpr],
    x: &TypedExpr,
    a: Source,
) -> Result<Source, NoMemory>
    ensures { IfOk result (Appends (spec.found_among dictionary.now (spec.part_of dictionary.now x.now) a (map (spec.part_of dictionary.now) others.now)) steps.old.items steps.new.items) }
{
    let mut found = truth_source(false);
    if others.is_empty() {
        return put(steps, PairKind::Fill, found, a);
    }
    for y in others {
        let b = lower(steps, dictionary, y)?;
        found = or_equal(steps, dictionary, x, y, a, b, found)?;
    }
    Ok(found)
}

/// A value that stands at `a`, at a greater scale.
fn at_scale(steps: &mut Vec<Step>, to: u32, x: &TypedExpr, a: Source) -> Result<Source, NoMemory>
    requires { to ≤ 37 }
    ensures { IfOk result (Appends (spec.times (spec.raise to (counted (scale_of x.now))) a) steps.old.items steps.new.items) }
{
    times(steps, raise(to, scale(x)), a)
}

/// One more operand of COALESCE, whose value stands at `b`, behind what is found so far.
fn filled(
    steps: &mut Vec<Step>,
    to: u32,
    y: &TypedExpr,
    found: Source,
    b: Source,
) -> Result<Source, NoMemory>
    requires { to ≤ 37 }
    ensures { IfOk result (Appends (spec.filled_from to (scale_of y.now) found b) steps.old.items steps.new.items) }
{
    let c = at_scale(steps, to, y, b)?;
    put(steps, PairKind::Fill, found, c)
}

/// The first operand of COALESCE that is there, behind what is found so far.
#[cycle(lowering)]
fn lower_first_there(
    steps: &mut Vec<Step>,
    dictionary: &Dictionary,
    others: &[TypedExpr],
    to: u32,
    first: Source,
) -> Result<Source, NoMemory>
    requires { to ≤ 37 }
    ensures { IfOk result (Appends (spec.first_there to (map (spec.part_of dictionary.now) others.now) first) steps.old.items steps.new.items) }
{
    let mut found = first;
    for y in others {
        let b = lower(steps, dictionary, y)?;
        found = filled(steps, to, y, found, b)?;
    }
    Ok(found)
}

/// Appends the steps of an expression, and says where its value stands. The recursion is as deep as the expression.
#[cycle(lowering)]
fn lower(steps: &mut Vec<Step>, dictionary: &Dictionary, e: &TypedExpr) -> Result<Source, NoMemory>
    ensures { IfOk result (Appends (spec.lowered dictionary.now e.now) steps.old.items steps.new.items) }
{
    match e {
        TypedExpr::Number(digits, _) => number_constant(steps, *digits),
        TypedExpr::Text(text) => text_constant(steps, dictionary, text.text()),
        TypedExpr::Date(day) => date_constant(steps, *day),
        TypedExpr::Column(column, _) => Ok(Source::Column(*column)),
        TypedExpr::Aggregate(place, _) => Ok(Source::Aggregate(*place)),
        TypedExpr::Signed(sign, x) => {
            let a = lower(steps, dictionary, x.get())?;
            sign_step(steps, *sign, a)
        }
        TypedExpr::Not(x) => {
            let a = lower(steps, dictionary, x.get())?;
            opposite(steps, a)
        }
        TypedExpr::Binary(op, x, y) => {
            let a = lower(steps, dictionary, x.get())?;
            let b = lower(steps, dictionary, y.get())?;
            binary(steps, dictionary, *op, x.get(), y.get(), a, b)
        }
        TypedExpr::Divide(x, sign, digits) => {
            let a = lower(steps, dictionary, x.get())?;
            divided(steps, *sign, *digits, a)
        }
        TypedExpr::Between(polarity, x, least, most) => {
            let a = lower(steps, dictionary, x.get())?;
            let b = lower(steps, dictionary, least.get())?;
            let c = lower(steps, dictionary, most.get())?;
            between(
                steps,
                dictionary,
                *polarity,
                x.get(),
                least.get(),
                most.get(),
                a,
                b,
                c,
            )
        }
        TypedExpr::In(polarity, x, others) => {
            let a = lower(steps, dictionary, x.get())?;
            let found = lower_among(steps, dictionary, others.as_slice(), x.get(), a)?;
            by_polarity(steps, *polarity, found)
        }
        TypedExpr::IsNull(polarity, x) => {
            let a = lower(steps, dictionary, x.get())?;
            null_test(steps, *polarity, a)
        }
        TypedExpr::Coalesce(x, others) => {
            let to = greatest_scale(scale(x.get()), others.as_slice());
            let a = lower(steps, dictionary, x.get())?;
            let first = at_scale(steps, to, x.get(), a)?;
            lower_first_there(steps, dictionary, others.as_slice(), to, first)
        }
    }
}

/// The steps that give an expression's value, a truth as 1 or 0 and a null as nothing, at each marked place, and nothing at any other. The value is what the last step makes.
pub fn expr_steps(
    alloc: Global,
    e: &TypedExpr,
    dictionary: &Dictionary,
) -> Result<Vec<Step>, NoMemory>
    ensures { IfOk result (λ v. v.items ≡ spec.steps_of dictionary.now e.now) }
{
    let mut steps = Vec::new(alloc);
    put(&mut steps, PairKind::Greater, Source::Mark, Source::Mark)?;
    put(&mut steps, PairKind::Equals, Source::Mark, Source::Mark)?;
    let value = lower(&mut steps, dictionary, e)?;
    put(&mut steps, PairKind::Fill, value, value)?;
    Ok(steps)
}
