//! The vectors that a statement mentions.

ghost use Rattle.std.specs.Prelude.{◌≡◌, ◌++◌, ◌∷◌, []};
ghost use Rattle.programs.specs.Mentions.{mentioned, operand_names, size_names};
ghost use Rattle.last_readers.specs.Names.{names_in};

use io_edge::Name;
use programs::{Family, Op, Operand, PairArgs, Size};

/// The names that a statement mentions, at most three.
#[derive(Clone, Copy)]
pub struct Mentions<'a> {
    pub first: Option<&'a Name>,
    pub second: Option<&'a Name>,
    pub third: Option<&'a Name>,
}

/// The names that an operator mentions.
pub fn mentions_of(op: &Op) -> Mentions<'_>
    ensures { names_in result ≡ mentioned op.now }
{
    match op.family() {
        Family::Load { .. } => none(),
        Family::Persist { a } => one(a),
        Family::Range { size, .. } => of_size(size),
        Family::Cross { a, b, .. } => two(a, b),
        Family::Zip { a, b } => two(a, b),
        Family::Project { a, .. } => one(a),
        Family::Upsert { a, b, .. } => two(a, b),
        Family::Gather { a, b, .. } => two(a, b),
        Family::Scatter { a, size, b, .. } => of_scatter(a, size, b),
        Family::Rank(_, args) => two(&args.a, &args.b),
        Family::Materialize { a } => one(a),
        Family::Break { a } => one(a),
        Family::Fold(_, args) => one(&args.a),
        Family::Order { a, .. } => one(a),
        Family::Pair(_, args) => of_pair(args),
        Family::BitShift { x, .. } => of_operand(x),
    }
}

fn none<'a>() -> Mentions<'a>
    ensures { names_in result ≡ [] }
{
    Mentions {
        first: None,
        second: None,
        third: None,
    }
}

fn one(a: &Name) -> Mentions<'_>
    ensures { names_in result ≡ a.now ∷ [] }
{
    Mentions {
        first: Some(a),
        second: None,
        third: None,
    }
}

fn two<'a>(a: &'a Name, b: &'a Name) -> Mentions<'a>
    ensures { names_in result ≡ a.now ∷ b.now ∷ [] }
{
    Mentions {
        first: Some(a),
        second: Some(b),
        third: None,
    }
}

fn of_size(size: &Size) -> Mentions<'_>
    ensures { names_in result ≡ size_names size.now }
{
    match size {
        Size::Number(_) => none(),
        Size::Of(a) => one(a),
    }
}

fn of_operand(x: &Operand) -> Mentions<'_>
    ensures { names_in result ≡ operand_names x.now }
{
    match x {
        Operand::Column(a, _) => one(a),
        Operand::Number(_) => none(),
    }
}

fn of_scatter<'a>(a: &'a Name, size: &'a Size, b: &'a Name) -> Mentions<'a>
    ensures { names_in result ≡ a.now ∷ size_names size.now ++ b.now ∷ [] }
{
    match size {
        Size::Number(_) => two(a, b),
        Size::Of(n) => Mentions {
            first: Some(a),
            second: Some(n),
            third: Some(b),
        },
    }
}

fn of_pair(args: &PairArgs) -> Mentions<'_>
    ensures { names_in result ≡ operand_names args.now.x ++ operand_names args.now.y }
{
    match (&args.x, &args.y) {
        (Operand::Column(a, _), Operand::Column(b, _)) => two(a, b),
        (Operand::Column(a, _), Operand::Number(_)) => one(a),
        (Operand::Number(_), y) => of_operand(y),
    }
}
