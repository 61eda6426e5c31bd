//! Which statements are reached: each Persist, and each whose vector a reached statement mentions.

ghost use Rattle.std.specs.Prelude.{◌≡◌, ◌||◌, ◌++◌, ◌∷◌, [], false, is_some, replicate, IfOk};
ghost use Rattle.programs.specs.Mentions.{is_persist, mentioned, operand_names, size_names};
ghost use Rattle.programs.specs.Indexes.{places_of};
ghost use Rattle.programs.specs.Reaching.{Chooses, AlsoWants};

use crate::index::Index;
use crate::{Family, NoMemory, Op, Operand, PairArgs, Size, Statement};
use io_edge::Name;
use std::alloc::Global;

/// For each statement, whether some Persist reaches it.
pub fn reached_marks(alloc: Global, statements: &[Statement]) -> Result<Vec<bool>, NoMemory>
    ensures { IfOk result (λ m. Chooses m.items statements.now) }
{
    let mut marks = no_marks(alloc, statements.len())?;
    let mut wanted = Index::new(alloc);
    let mut i = statements.len();
    while i > 0 {
        i -= 1;
        if is_wanted(&wanted, &statements[i]) {
            wanted = mention(alloc, wanted, &statements[i].op)?;
            marks[i] = true;
        }
    }
    Ok(marks)
}

/// So many marks, none of them set.
pub fn no_marks(alloc: Global, len: usize) -> Result<Vec<bool>, NoMemory>
    ensures { IfOk result (λ m. m.items ≡ replicate len false) }
{
    vec![in alloc; false; len]
}

fn is_wanted(wanted: &Index, s: &Statement) -> bool
    ensures { result ≡ (is_persist s.now.op || is_some (places_of wanted.now s.now.name)) }
{
    s.op.persists() || wanted.place(&s.name).is_some()
}

/// Adds the names that an operator mentions.
fn mention(alloc: Global, wanted: Index, op: &Op) -> Result<Index, NoMemory>
    ensures { IfOk result (λ now. AlsoWants (places_of wanted) (mentioned op.now) (places_of now)) }
{
    match op.family() {
        Family::Load { .. } => Ok(wanted),
        Family::Persist { a } => want(alloc, wanted, a),
        Family::Range { size, .. } => mention_size(alloc, wanted, size),
        Family::Cross { a, b, .. } => mention_both(alloc, wanted, a, b),
        Family::Zip { a, b } => mention_both(alloc, wanted, a, b),
        Family::Project { a, .. } => want(alloc, wanted, a),
        Family::Upsert { a, b, .. } => mention_both(alloc, wanted, a, b),
        Family::Gather { a, b, .. } => mention_both(alloc, wanted, a, b),
        Family::Scatter { a, size, b, .. } => mention_scatter(alloc, wanted, a, size, b),
        Family::Rank(_, args) => mention_both(alloc, wanted, &args.a, &args.b),
        Family::Materialize { a } => want(alloc, wanted, a),
        Family::Break { a } => want(alloc, wanted, a),
        Family::Fold(_, args) => want(alloc, wanted, &args.a),
        Family::Order { a, .. } => want(alloc, wanted, a),
        Family::Pair(_, args) => mention_pair(alloc, wanted, args),
        Family::BitShift { x, .. } => mention_operand(alloc, wanted, x),
    }
}

fn want(alloc: Global, wanted: Index, a: &Name) -> Result<Index, NoMemory>
    ensures { IfOk result (λ now. AlsoWants (places_of wanted) (a.now ∷ []) (places_of now)) }
{
    let now = wanted.with(alloc, a, 0)?;
    Ok(now)
}

fn mention_both(alloc: Global, wanted: Index, a: &Name, b: &Name) -> Result<Index, NoMemory>
    ensures { IfOk result (λ now. AlsoWants (places_of wanted) (a.now ∷ b.now ∷ []) (places_of now)) }
{
    let first = want(alloc, wanted, a)?;
    let now = want(alloc, first, b)?;
    Ok(now)
}

fn mention_size(alloc: Global, wanted: Index, size: &Size) -> Result<Index, NoMemory>
    ensures { IfOk result (λ now. AlsoWants (places_of wanted) (size_names size.now) (places_of now)) }
{
    match size {
        Size::Number(_) => Ok(wanted),
        Size::Of(a) => want(alloc, wanted, a),
    }
}

fn mention_scatter(
    alloc: Global,
    wanted: Index,
    a: &Name,
    size: &Size,
    b: &Name,
) -> Result<Index, NoMemory>
    ensures { IfOk result (λ now. AlsoWants (places_of wanted) (a.now ∷ size_names size.now ++ b.now ∷ []) (places_of now)) }
{
    let first = want(alloc, wanted, a)?;
    let second = mention_size(alloc, first, size)?;
    let now = want(alloc, second, b)?;
    Ok(now)
}

fn mention_pair(alloc: Global, wanted: Index, args: &PairArgs) -> Result<Index, NoMemory>
    ensures { IfOk result (λ now. AlsoWants (places_of wanted) (operand_names args.now.x ++ operand_names args.now.y) (places_of now)) }
{
    let first = mention_operand(alloc, wanted, &args.x)?;
    let now = mention_operand(alloc, first, &args.y)?;
    Ok(now)
}

fn mention_operand(alloc: Global, wanted: Index, x: &Operand) -> Result<Index, NoMemory>
    ensures { IfOk result (λ now. AlsoWants (places_of wanted) (operand_names x.now) (places_of now)) }
{
    match x {
        Operand::Column(a, _) => want(alloc, wanted, a),
        Operand::Number(_) => Ok(wanted),
    }
}
