//! Programs printed.

ghost use Rattle.std.specs.Prelude.{◌≡◌, ◌++◌, Ok, IfOk};
ghost use Rattle.programs.specs.Families.{family};
ghost use Rattle.voodoo_text.specs.Canonical.{call, family_word, family_text, arguments as words_of, target, line, text_of};
ghost use Rattle.voodoo_text.specs.Reading.{read_text};
ghost use Rattle.voodoo_text.specs.Laws.{line_by_line};
ghost use Rattle.voodoo_text.specs.Spelled.{CanBeSpelled, InRange};

use crate::NoMemory;
use crate::calls::{
    write_fold, write_gather, write_name, write_names, write_order, write_pair, write_project,
    write_range, write_rank, write_scatter, write_shift, write_two,
};
use crate::operator::{fold_word, pair_word, rank_word};
use programs::{Family, Op, Program, Statement};
use std::alloc::Global;

/// The canonical text of a program that can be spelled: each name has the form of a path's segment, a
/// letter or `_`, then letters, digits and `_`, at most 64 bytes, and each shift is one of -127 to
/// 127. What is read of it is the program again, each statement on a line of its own. It fails only
/// for want of memory.
pub fn program_text(alloc: Global, p: &Program) -> Result<Vec<u8>, NoMemory>
    requires { CanBeSpelled p.now }
    ensures text { IfOk result (λ v. v.items ≡ text_of p.now) }
    ensures read { IfOk result (λ v. read_text v.items ≡ Ok (line_by_line p.now)) }
{
    let mut text = Vec::new(alloc);
    let mut rest = p.statements();
    'statements: while let [statement, others @ ..] = rest {
        write_line(&mut text, statement)?;
        rest = others;
    }
    Ok(text)
}

/// Appends the line of a statement.
fn write_line(out: &mut Vec<u8>, statement: &Statement) -> Result<(), NoMemory>
    ensures text { IfOk result (λ _. out.new.items ≡ out.old.items ++ line statement.now) }
    ensures range { IfOk result (λ _. InRange (family statement.now.op)) }
{
    write_statement(out, statement.name.text(), &statement.op)?;
    out.extend_from_slice(b"\n")
}

/// Appends a statement with a name and an operator of a family.
fn write_statement(out: &mut Vec<u8>, name: &str, op: &Op) -> Result<(), NoMemory>
    ensures text { IfOk result (λ _. out.new.items ≡ out.old.items ++ family_text name.now (family op.now)) }
    ensures range { IfOk result (λ _. InRange (family op.now)) }
{
    write_target(out, name, op)?;
    write_operator(out, name, op)
}

/// Appends what stands before an operator: the name that it gives its vector, but for a Persist.
fn write_target(out: &mut Vec<u8>, name: &str, op: &Op) -> Result<(), NoMemory>
    ensures { IfOk result (λ _. out.new.items ≡ out.old.items ++ target name.now (family op.now)) }
{
    if op.persists() {
        Ok(())
    } else {
        out.extend_from_slice(name.as_bytes())?;
        out.extend_from_slice(b" = ")
    }
}

/// Appends an operator with its arguments.
fn write_operator<'a>(out: &mut Vec<u8>, name: &'a str, op: &'a Op) -> Result<(), NoMemory>
    ensures text { IfOk result (λ _. out.new.items ≡ out.old.items ++ call (family_word (family op.now)) (words_of name.now (family op.now))) }
    ensures range { IfOk result (λ _. InRange (family op.now)) }
{
    match op.family() {
        Family::Load { table } => write_name(out, b"Load", table),
        Family::Persist { a } => write_names(out, b"Persist", name, a),
        Family::Range {
            size,
            out: path,
            control,
        } => write_range(out, size, path, &control),
        Family::Cross { a, p, b, q } => write_two(out, b"Cross", a, p, b, q),
        Family::Zip { a, b } => write_names(out, b"Zip", a.text(), b),
        Family::Project { a, p, q } => write_project(out, a, p, q),
        Family::Upsert { a, p, b, q } => write_two(out, b"Upsert", a, p, b, q),
        Family::Gather { a, b, pos } => write_gather(out, a, b, pos),
        Family::Scatter { a, size, b, pos } => write_scatter(out, a, size, b, pos),
        Family::Rank(kind, args) => write_rank(out, rank_word(kind), args),
        Family::Materialize { a } => write_name(out, b"Materialize", a),
        Family::Break { a } => write_name(out, b"Break", a),
        Family::Fold(kind, args) => write_fold(out, fold_word(kind), args),
        Family::Order {
            a,
            mark,
            out: path,
            keys,
        } => write_order(out, a, mark, path, keys),
        Family::Pair(kind, args) => write_pair(out, pair_word(kind), args),
        Family::BitShift { x, by, out: path } => write_shift(out, x, by, path),
    }
}
