//! What is wrong with one statement, behind what is known.

ghost use Rattle.std.specs.Prelude.{◌≡◌, ◌∷◌, [], is_none};
ghost use Rattle.std.specs.List.{list_any};
ghost use Rattle.key_paths.specs.Substructures.{is_at_or_below};
ghost use Rattle.programs.specs.Check as check;
ghost use Rattle.programs.specs.Faults as spec;
ghost use Rattle.programs.specs.Faults.{first_fault, path_clash, too_deep};
ghost use Rattle.programs.specs.MadeOutlines.{made_outline};
ghost use Rattle.programs.specs.Mentions.{operand_names, size_names};
ghost use Rattle.programs.specs.Outlines.{Outline, outlines};
ghost use Rattle.programs.specs.Parts.{Drafts, known_in};
ghost use Rattle.programs.specs.Vectors.{tables};

use crate::drafts::Draft;
use crate::known::Known;
use crate::{
    Family, FoldArgs, Op, Operand, OrderKeys, OrderPath, PairArgs, ProgramKind, RankArgs, Size,
    Statement,
};
use io_edge::Name;
use key_paths::Path;
use struct_vectors::Store;

/// How many keys an Order may have.
const MOST_KEYS: usize = 16;

/// The first of a statement's tests that fails.
pub(crate) fn fault_of(
    store: &Store,
    known: &Known,
    s: &Statement,
    made: &Option<Draft>,
) -> Option<ProgramKind>
    requires { Drafts made.now (made_outline (outlines (tables store.now)) (known_in known.now).vectors s.now.op) }
    ensures { result ≡ check.fault_of (outlines (tables store.now)) (known_in known.now) s.now.name s.now.op }
{
    if names_unknown(store, known, &s.op) {
        return Some(ProgramKind::UnknownName);
    }
    if lacks_some_path(known, &s.op) {
        return Some(ProgramKind::NoSuchPath);
    }
    if has_no_length(&s.op) {
        return Some(ProgramKind::NoLength);
    }
    if clashes(made) {
        return Some(ProgramKind::PathClash);
    }
    if made.is_none() {
        return Some(ProgramKind::TooDeep);
    }
    if has_many_keys(&s.op) {
        return Some(ProgramKind::TooManyKeys);
    }
    if is_twice(known, s) {
        return Some(ProgramKind::NameTwice);
    }
    None
}

// ---- names

fn names_unknown(store: &Store, known: &Known, op: &Op) -> bool
    ensures { result ≡ spec.unknown_name (outlines (tables store.now)) (known_in known.now).vectors op.now }
{
    match op.family() {
        Family::Load { table } => store.table(table).is_none(),
        Family::Persist { a } => is_unknown(known, a),
        Family::Range { size, .. } => size_unknown(known, size),
        Family::Cross { a, b, .. } => either_unknown(known, a, b),
        Family::Zip { a, b } => either_unknown(known, a, b),
        Family::Project { a, .. } => is_unknown(known, a),
        Family::Upsert { a, b, .. } => either_unknown(known, a, b),
        Family::Gather { a, b, .. } => either_unknown(known, a, b),
        Family::Scatter { a, size, b, .. } => {
            is_unknown(known, a) || size_unknown(known, size) || is_unknown(known, b)
        }
        Family::Rank(_, args) => either_unknown(known, &args.a, &args.b),
        Family::Materialize { a } => is_unknown(known, a),
        Family::Break { a } => is_unknown(known, a),
        Family::Fold(_, args) => is_unknown(known, &args.a),
        Family::Order { a, .. } => is_unknown(known, a),
        Family::Pair(_, args) => {
            operand_unknown(known, &args.x) || operand_unknown(known, &args.y)
        }
        Family::BitShift { x, .. } => operand_unknown(known, x),
    }
}

/// Whether one of two names is unknown.
fn either_unknown(known: &Known, a: &Name, b: &Name) -> bool
    ensures { result ≡ list_any (λ n. is_none ((known_in known.now).vectors n)) (a.now ∷ b.now ∷ []) }
{
    is_unknown(known, a) || is_unknown(known, b)
}

fn is_unknown(known: &Known, a: &Name) -> bool
    ensures { result ≡ is_none ((known_in known.now).vectors a.now) }
{
    known.vector(a).is_none()
}

fn size_unknown(known: &Known, size: &Size) -> bool
    ensures { result ≡ list_any (λ a. is_none ((known_in known.now).vectors a)) (size_names size.now) }
{
    match size {
        Size::Number(_) => false,
        Size::Of(a) => is_unknown(known, a),
    }
}

fn operand_unknown(known: &Known, x: &Operand) -> bool
    ensures { result ≡ list_any (λ a. is_none ((known_in known.now).vectors a)) (operand_names x.now) }
{
    match x {
        Operand::Column(a, _) => is_unknown(known, a),
        Operand::Number(_) => false,
    }
}

// ---- paths

fn lacks_some_path(known: &Known, op: &Op) -> bool
    ensures { result ≡ spec.no_such_path (known_in known.now).vectors op.now }
{
    match op.family() {
        Family::Project { a, p, .. } => lacks_below(known, a, p),
        Family::Upsert { b, q, .. } => lacks_path(known, b, q),
        Family::Gather { b, pos, .. } => lacks_path(known, b, pos),
        Family::Scatter { b, pos, .. } => lacks_path(known, b, pos),
        Family::Rank(_, args) => lacks_rank(known, args),
        Family::Fold(_, args) => lacks_fold(known, args),
        Family::Order { a, mark, keys, .. } => lacks_order(known, a, mark, keys),
        Family::Pair(_, args) => lacks_operand(known, &args.x) || lacks_operand(known, &args.y),
        Family::BitShift { x, .. } => lacks_operand(known, x),
        _ => false,
    }
}

fn lacks_operand(known: &Known, x: &Operand) -> bool
    ensures { result ≡ spec.lacks_operand (known_in known.now).vectors x.now }
{
    match x {
        Operand::Column(a, p) => lacks_path(known, a, p),
        Operand::Number(_) => false,
    }
}

fn lacks_fold(known: &Known, args: &FoldArgs) -> bool
    ensures { result ≡ spec.lacks_fold (known_in known.now).vectors args.now }
{
    lacks_path(known, &args.a, &args.val) || lacks_below(known, &args.a, &args.run)
}

fn lacks_rank(known: &Known, args: &RankArgs) -> bool
    ensures { result ≡ spec.lacks_rank (known_in known.now).vectors args.now }
{
    lacks_path(known, &args.a, &args.key) || lacks_path(known, &args.b, &args.pivot)
}

fn lacks_order(known: &Known, a: &Name, mark: &Path, keys: &OrderKeys) -> bool
    ensures { result ≡ spec.lacks_order (known_in known.now).vectors a.now mark.now keys.now }
{
    lacks_path(known, a, mark) || lacks_key(known, a, keys.keys())
}

fn lacks_key(known: &Known, a: &Name, keys: &[OrderPath]) -> bool
    ensures { result ≡ list_any (λ k. spec.lacks_path (known_in known.now).vectors a.now k.path) keys.now }
{
    keys.iter().any(|k| lacks_path(known, a, &k.path))
}

fn lacks_path(known: &Known, a: &Name, p: &Path) -> bool
    ensures { result ≡ spec.lacks_path (known_in known.now).vectors a.now p.now }
{
    match known.vector(a) {
        Some(outline) => !outline.paths().contains(p),
        None => true,
    }
}

fn lacks_below(known: &Known, a: &Name, p: &Path) -> bool
    ensures { result ≡ spec.lacks_below (known_in known.now).vectors a.now p.now }
{
    match known.vector(a) {
        Some(outline) => !has_below(outline.paths(), p),
        None => true,
    }
}

fn has_below(paths: &[Path], p: &Path) -> bool
    ensures { result ≡ list_any (λ q. is_at_or_below q p.now) paths.now }
{
    paths.iter().any(|q| q.starts_with(p))
}

/// Whether paths of what is drafted clash. Where nothing is drafted, since a path is too deep, none do.
fn clashes(made: &Option<Draft>) -> bool
    ensures clash { (meant : Outline) → Drafts made.now meant → result ≡ path_clash meant }
    ensures deep { (meant : Outline) → Drafts made.now meant → is_none made.now ≡ too_deep meant }
{
    match made {
        Some(draft) => draft.clashes(),
        None => false,
    }
}

// ---- lengths, keys and names that are taken

fn has_no_length(op: &Op) -> bool
    ensures { result ≡ spec.no_length op.now }
{
    match op.family() {
        Family::Pair(_, args) => both_numbers(args),
        Family::BitShift { x, .. } => is_number(x),
        _ => false,
    }
}

fn both_numbers(args: &PairArgs) -> bool
    ensures { result ≡ spec.both_numbers args.now }
{
    is_number(&args.x) && is_number(&args.y)
}

fn is_number(x: &Operand) -> bool
    ensures { result ≡ spec.is_number x.now }
{
    match x {
        Operand::Column(..) => false,
        Operand::Number(_) => true,
    }
}

fn has_many_keys(op: &Op) -> bool
    ensures { result ≡ spec.too_many_keys op.now }
{
    match op.family() {
        Family::Order { keys, .. } => MOST_KEYS < keys.keys().len(),
        _ => false,
    }
}

fn is_twice(known: &Known, s: &Statement) -> bool
    ensures { result ≡ check.name_twice (known_in known.now) s.now.name s.now.op }
{
    if s.op.persists() {
        known.has_result(&s.name)
    } else {
        known.vector(&s.name).is_some()
    }
}
