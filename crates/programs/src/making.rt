//! The draft of the vector that a statement makes, behind what is known.

ghost use Rattle.std.specs.Prelude.{◌≡◌, ◌∷◌, [], IfOk};
ghost use Rattle.programs.specs.MadeOutlines as spec;
ghost use Rattle.programs.specs.Moves.{projected, upserted};
ghost use Rattle.programs.specs.Outlines.{known_outline, len_in, outlined, outlines, paths_in};
ghost use Rattle.programs.specs.Parts.{Drafts, known_in};
ghost use Rattle.programs.specs.Vectors.{tables};

use crate::drafts::Draft;
use crate::known::Known;
use crate::moving::projected_draft;
use crate::outline::Outline;
use crate::{Family, NoMemory, Op, Operand, PairArgs, Size};
use io_edge::Name;
use key_paths::Path;
use std::alloc::Global;
use struct_vectors::Store;

/// The draft of the vector that an operator makes, as far as the names that it mentions are known;
/// `None` where it would have a path of more than eight segments.
pub(crate) fn made_draft(
    alloc: Global,
    store: &Store,
    known: &Known,
    op: &Op,
) -> Result<Option<Draft>, NoMemory>
    ensures { IfOk result (λ d. Drafts d (spec.made_outline (outlines (tables store.now)) (known_in known.now).vectors op.now)) }
{
    match op.family() {
        Family::Load { table } => loaded(alloc, store, table),
        Family::Persist { .. } => Ok(Some(Draft::none(alloc))),
        Family::Range { size, out, .. } => one_path(alloc, size_in(known, size), out),
        Family::Cross { a, p, b, q } => crossed(alloc, known, a, p, b, q),
        Family::Zip { a, b } => zipped(alloc, known, a, b),
        Family::Project { a, p, q } => project(alloc, known, a, p, q),
        Family::Upsert { a, p, .. } => upsert(alloc, known, a, p),
        Family::Gather { a, b, .. } => same_paths(alloc, known, len_of(known, b), a),
        Family::Scatter { a, size, .. } => same_paths(alloc, known, size_in(known, size), a),
        Family::Rank(_, args) => one_path(alloc, len_of(known, &args.a), &args.out),
        Family::Materialize { a } => same_paths(alloc, known, len_of(known, a), a),
        Family::Break { a } => same_paths(alloc, known, len_of(known, a), a),
        Family::Fold(_, args) => one_path(alloc, len_of(known, &args.a), &args.out),
        Family::Order { a, out, .. } => one_path(alloc, len_of(known, a), out),
        Family::Pair(_, args) => one_path(alloc, pair_len(known, args), &args.out),
        Family::BitShift { x, out, .. } => one_path(alloc, operand_len(known, x), out),
    }
}

fn loaded(alloc: Global, store: &Store, table: &Name) -> Result<Option<Draft>, NoMemory>
    ensures { IfOk result (λ d. Drafts d (known_outline (outlines (tables store.now) table.now))) }
{
    let draft = match store.table(table) {
        Some(v) => Draft::of_vector(alloc, v)?,
        None => Draft::none(alloc),
    };
    Ok(Some(draft))
}

fn one_path(alloc: Global, len: u64, out: &Path) -> Result<Option<Draft>, NoMemory>
    ensures { IfOk result (λ d. Drafts d (outlined len (out.now ∷ []))) }
{
    let draft = Draft::of_path(alloc, len, out)?;
    Ok(Some(draft))
}

fn crossed(
    alloc: Global,
    known: &Known,
    a: &Name,
    p: &Path,
    b: &Name,
    q: &Path,
) -> Result<Option<Draft>, NoMemory>
    ensures { IfOk result (λ d. Drafts d (spec.cross_outline (known_in known.now).vectors a.now p.now b.now q.now)) }
{
    let len = len_of(known, a).saturating_mul(len_of(known, b));
    let draft = Draft::of_two(alloc, len, p, q)?;
    Ok(Some(draft))
}

fn zipped(alloc: Global, known: &Known, a: &Name, b: &Name) -> Result<Option<Draft>, NoMemory>
    ensures { IfOk result (λ d. Drafts d (spec.zipped_outline (known_outline ((known_in known.now).vectors a.now)) (known_outline ((known_in known.now).vectors b.now)))) }
{
    let none = Outline::none(alloc);
    let first = known.vector(a).unwrap_or(&none);
    let second = known.vector(b).unwrap_or(&none);
    let draft = Draft::zipped(alloc, first, second)?;
    Ok(Some(draft))
}

fn project(
    alloc: Global,
    known: &Known,
    a: &Name,
    p: &Path,
    q: &Path,
) -> Result<Option<Draft>, NoMemory>
    ensures { IfOk result (λ d. Drafts d (outlined (len_in (known_in known.now).vectors a.now) (projected p.now q.now (paths_in (known_in known.now).vectors a.now)))) }
{
    let none = Outline::none(alloc);
    let outline = known.vector(a).unwrap_or(&none);
    projected_draft(alloc, outline, p, q)
}

fn upsert(alloc: Global, known: &Known, a: &Name, p: &Path) -> Result<Option<Draft>, NoMemory>
    ensures { IfOk result (λ d. Drafts d (outlined (len_in (known_in known.now).vectors a.now) (upserted p.now (paths_in (known_in known.now).vectors a.now)))) }
{
    let none = Outline::none(alloc);
    let outline = known.vector(a).unwrap_or(&none);
    let draft = Draft::upserted(alloc, outline, p)?;
    Ok(Some(draft))
}

fn same_paths(alloc: Global, known: &Known, len: u64, a: &Name) -> Result<Option<Draft>, NoMemory>
    ensures { IfOk result (λ d. Drafts d (outlined len (paths_in (known_in known.now).vectors a.now))) }
{
    let none = Outline::none(alloc);
    let outline = known.vector(a).unwrap_or(&none);
    let draft = Draft::of_outline(alloc, len, outline)?;
    Ok(Some(draft))
}

// ---- lengths

fn len_of(known: &Known, a: &Name) -> u64
    ensures { result ≡ len_in (known_in known.now).vectors a.now }
{
    match known.vector(a) {
        Some(outline) => outline.len(),
        None => 0,
    }
}

fn size_in(known: &Known, size: &Size) -> u64
    ensures { result ≡ spec.size_in (known_in known.now).vectors size.now }
{
    match size {
        Size::Number(n) => u64::from(*n),
        Size::Of(a) => len_of(known, a),
    }
}

fn operand_len(known: &Known, x: &Operand) -> u64
    ensures { result ≡ spec.operand_len_in (known_in known.now).vectors x.now }
{
    match x {
        Operand::Column(a, _) => len_of(known, a),
        Operand::Number(_) => 0,
    }
}

fn pair_len(known: &Known, args: &PairArgs) -> u64
    ensures { result ≡ spec.pair_len_in (known_in known.now).vectors args.now.x args.now.y }
{
    match (&args.x, &args.y) {
        (Operand::Column(a, _), Operand::Column(b, _)) => len_of(known, a).min(len_of(known, b)),
        (Operand::Column(a, _), Operand::Number(_)) => len_of(known, a),
        (Operand::Number(_), Operand::Column(b, _)) => len_of(known, b),
        (Operand::Number(_), Operand::Number(_)) => 0,
    }
}
