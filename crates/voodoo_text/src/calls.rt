//! The operators with their arguments, printed.

ghost use Rattle.std.specs.Prelude.{◌≡◌, ◌∷◌, [], ◌++◌, map, codes, IfOk};
ghost use Rattle.std.specs.Fmt.{signed_decimal};
ghost use Rattle.voodoo_text.specs.Canonical.{call, range_arguments, pair_arguments, fold_arguments, rank_arguments, size_text, operand_text, key_text};
ghost use Rattle.control_vectors.specs.Controls.{IsAdmissible};
ghost use Rattle.key_paths.specs.Paths.{IsPath};
ghost use Rattle.voodoo_text.specs.Spelled.{OperandInRange, PairInRange, FoldInRange, RankInRange, SizeInRange, KeysInRange};

use crate::NoMemory;
use crate::argument::{Argument, of_operand, of_size, write_call, write_keys, write_list};
use control_vectors::ControlVector;
use io_edge::Name;
use key_paths::Path;
use programs::{FoldArgs, Operand, OrderKeys, PairArgs, RankArgs, Size};

/// Appends an operator of one name.
pub(crate) fn write_name(out: &mut Vec<u8>, word: &[u8], a: &Name) -> Result<(), NoMemory>
    ensures { IfOk result (λ _. out.new.items ≡ out.old.items ++ call word.now (a.now ∷ [])) }
{
    write_call(out, word, &[Argument::Word(a.text())])
}

/// Appends an operator of two names.
pub(crate) fn write_names(out: &mut Vec<u8>, word: &[u8], a: &str, b: &Name) -> Result<(), NoMemory>
    ensures { IfOk result (λ _. out.new.items ≡ out.old.items ++ call word.now (a.now ∷ b.now ∷ [])) }
{
    write_call(out, word, &[Argument::Word(a), Argument::Word(b.text())])
}

/// Appends a Range.
pub(crate) fn write_range<'a>(
    out: &mut Vec<u8>,
    size: &'a Size,
    path: &'a Path,
    control: &ControlVector,
) -> Result<(), NoMemory>
    ensures text { IfOk result (λ _. out.new.items ≡ out.old.items ++ call (codes "Range") (range_arguments size.now path.now control.now)) }
    ensures range { SizeInRange size.now × IsPath path.now × IsAdmissible control.now }
{
    write_call(
        out,
        b"Range",
        &[
            of_size(size),
            Argument::Word(path.text()),
            Argument::Number(control.start() as i128),
            Argument::Number(control.step() as i128),
            Argument::Number(control.modulus() as i128),
            Argument::Number(control.divisor() as i128),
        ],
    )
}

/// Appends a Cross or an Upsert.
pub(crate) fn write_two<'a>(
    out: &mut Vec<u8>,
    word: &[u8],
    a: &'a Name,
    p: &'a Path,
    b: &'a Name,
    q: &'a Path,
) -> Result<(), NoMemory>
    ensures text { IfOk result (λ _. out.new.items ≡ out.old.items ++ call word.now (a.now ∷ p.now ∷ b.now ∷ q.now ∷ [])) }
    ensures range { IsPath p.now × IsPath q.now }
{
    write_call(
        out,
        word,
        &[
            Argument::Word(a.text()),
            Argument::Word(p.text()),
            Argument::Word(b.text()),
            Argument::Word(q.text()),
        ],
    )
}

/// Appends a Project.
pub(crate) fn write_project<'a>(
    out: &mut Vec<u8>,
    a: &'a Name,
    p: &'a Path,
    q: &'a Path,
) -> Result<(), NoMemory>
    ensures text { IfOk result (λ _. out.new.items ≡ out.old.items ++ call (codes "Project") (a.now ∷ p.now ∷ q.now ∷ [])) }
    ensures range { IsPath p.now × IsPath q.now }
{
    write_call(
        out,
        b"Project",
        &[
            Argument::Word(a.text()),
            Argument::Word(p.text()),
            Argument::Word(q.text()),
        ],
    )
}

/// Appends a Gather.
pub(crate) fn write_gather<'a>(
    out: &mut Vec<u8>,
    a: &'a Name,
    b: &'a Name,
    pos: &'a Path,
) -> Result<(), NoMemory>
    ensures text { IfOk result (λ _. out.new.items ≡ out.old.items ++ call (codes "Gather") (a.now ∷ b.now ∷ pos.now ∷ [])) }
    ensures range { IsPath pos.now }
{
    write_call(
        out,
        b"Gather",
        &[
            Argument::Word(a.text()),
            Argument::Word(b.text()),
            Argument::Word(pos.text()),
        ],
    )
}

/// Appends a Scatter.
pub(crate) fn write_scatter<'a>(
    out: &mut Vec<u8>,
    a: &'a Name,
    size: &'a Size,
    b: &'a Name,
    pos: &'a Path,
) -> Result<(), NoMemory>
    ensures text { IfOk result (λ _. out.new.items ≡ out.old.items ++ call (codes "Scatter") (a.now ∷ size_text size.now ∷ b.now ∷ pos.now ∷ [])) }
    ensures range { SizeInRange size.now × IsPath pos.now }
{
    write_call(
        out,
        b"Scatter",
        &[
            Argument::Word(a.text()),
            of_size(size),
            Argument::Word(b.text()),
            Argument::Word(pos.text()),
        ],
    )
}

/// Appends a Bucket or a Partition.
pub(crate) fn write_rank(out: &mut Vec<u8>, word: &[u8], args: &RankArgs) -> Result<(), NoMemory>
    ensures text { IfOk result (λ _. out.new.items ≡ out.old.items ++ call word.now (rank_arguments args.now)) }
    ensures range { RankInRange args.now }
{
    write_call(
        out,
        word,
        &[
            Argument::Word(args.a.text()),
            Argument::Word(args.key.text()),
            Argument::Word(args.b.text()),
            Argument::Word(args.pivot.text()),
            Argument::Word(args.out.text()),
        ],
    )
}

/// Appends a slot-wise operator.
pub(crate) fn write_pair(out: &mut Vec<u8>, word: &[u8], args: &PairArgs) -> Result<(), NoMemory>
    ensures text { IfOk result (λ _. out.new.items ≡ out.old.items ++ call word.now (pair_arguments args.now)) }
    ensures range { PairInRange args.now }
{
    write_call(
        out,
        word,
        &[
            of_operand(&args.x),
            of_operand(&args.y),
            Argument::Word(args.out.text()),
        ],
    )
}

/// Appends a BitShift.
pub(crate) fn write_shift<'a>(
    out: &mut Vec<u8>,
    x: &'a Operand,
    by: i32,
    path: &'a Path,
) -> Result<(), NoMemory>
    ensures text { IfOk result (λ _. out.new.items ≡ out.old.items ++ call (codes "BitShift") (operand_text x.now ∷ signed_decimal by ∷ path.now ∷ [])) }
    ensures range { OperandInRange x.now × IsPath path.now }
{
    write_call(
        out,
        b"BitShift",
        &[
            of_operand(x),
            Argument::Number(by as i128),
            Argument::Word(path.text()),
        ],
    )
}

/// Appends a fold.
pub(crate) fn write_fold(out: &mut Vec<u8>, word: &[u8], args: &FoldArgs) -> Result<(), NoMemory>
    ensures text { IfOk result (λ _. out.new.items ≡ out.old.items ++ call word.now (fold_arguments args.now)) }
    ensures range { FoldInRange args.now }
{
    write_call(
        out,
        word,
        &[
            Argument::Word(args.a.text()),
            Argument::Word(args.val.text()),
            Argument::Word(args.run.text()),
            Argument::Word(args.out.text()),
        ],
    )
}

/// Appends an Order.
pub(crate) fn write_order<'a>(
    out: &mut Vec<u8>,
    a: &'a Name,
    mark: &'a Path,
    path: &'a Path,
    keys: &OrderKeys,
) -> Result<(), NoMemory>
    ensures text { IfOk result (λ _. out.new.items ≡ out.old.items ++ call (codes "Order") (a.now ∷ mark.now ∷ path.now ∷ map key_text keys.now)) }
    ensures range { IfOk result (λ _. IsPath mark.now × IsPath path.now × KeysInRange keys.now) }
{
    out.extend_from_slice(b"Order(")?;
    write_list(
        out,
        &[
            Argument::Word(a.text()),
            Argument::Word(mark.text()),
            Argument::Word(path.text()),
        ],
    )?;
    write_keys(out, keys.keys())?;
    out.extend_from_slice(b")")
}
