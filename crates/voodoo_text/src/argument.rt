//! The arguments of an operator, as they are printed.

ghost use Rattle.std.specs.Prelude.{◌≡◌, ◌++◌, codes, map, IfOk};
ghost use Rattle.std.specs.List.{flat_map};
ghost use Rattle.key_paths.specs.Paths.{IsPath};
ghost use Rattle.voodoo_text.specs.Arguments.{argument_text};
ghost use Rattle.voodoo_text.specs.Spelled.{OperandInRange, SizeInRange, KeysInRange};
ghost use Rattle.voodoo_text.specs.Canonical.{after_comma, call, listed, operand_text, size_text, key_text};

use crate::NoMemory;
use itoa::Buffer;
use programs::{Operand, OrderPath, Size};

/// What stands between two commas: a word, a vector's name directly followed by a path, or a number.
#[derive(Clone, Copy)]
pub enum Argument<'a> {
    Word(&'a str),
    Attribute(&'a str, &'a str),
    Number(i128),
}

/// A size as an argument.
pub(crate) fn of_size(size: &Size) -> Argument<'_>
    ensures text { argument_text result ≡ size_text size.now }
    ensures range { SizeInRange size.now }
{
    match size {
        Size::Number(n) => Argument::Number(*n as i128),
        Size::Of(vector) => Argument::Word(vector.text()),
    }
}

/// An operand as an argument.
pub(crate) fn of_operand(operand: &Operand) -> Argument<'_>
    ensures text { argument_text result ≡ operand_text operand.now }
    ensures range { OperandInRange operand.now }
{
    match operand {
        Operand::Column(vector, path) => Argument::Attribute(vector.text(), path.text()),
        Operand::Number(n) => Argument::Number(*n),
    }
}

/// Appends an argument.
fn write_argument(out: &mut Vec<u8>, argument: &Argument) -> Result<(), NoMemory>
    ensures { IfOk result (λ _. out.new.items ≡ out.old.items ++ argument_text argument.now) }
{
    match argument {
        Argument::Word(word) => out.extend_from_slice(word.as_bytes()),
        Argument::Attribute(vector, path) => {
            out.extend_from_slice(vector.as_bytes())?;
            out.extend_from_slice(path.as_bytes())
        }
        Argument::Number(n) => {
            let mut digits = Buffer::new();
            out.extend_from_slice(digits.format(*n).as_bytes())
        }
    }
}

/// Appends arguments, each after a comma and a blank.
fn write_others(out: &mut Vec<u8>, arguments: &[Argument]) -> Result<(), NoMemory>
    ensures { IfOk result (λ _. out.new.items ≡ out.old.items ++ flat_map after_comma (map argument_text arguments.now)) }
{
    let mut rest = arguments;
    'others: while let [argument, others @ ..] = rest {
        out.extend_from_slice(b", ")?;
        write_argument(out, argument)?;
        rest = others;
    }
    Ok(())
}

/// Appends arguments, with a comma and a blank between them.
pub(crate) fn write_list(out: &mut Vec<u8>, arguments: &[Argument]) -> Result<(), NoMemory>
    ensures { IfOk result (λ _. out.new.items ≡ out.old.items ++ listed (map argument_text arguments.now)) }
{
    match arguments {
        [] => Ok(()),
        [first, others @ ..] => {
            write_argument(out, first)?;
            write_others(out, others)
        }
    }
}

/// Appends `word(arguments)`.
pub(crate) fn write_call(
    out: &mut Vec<u8>,
    word: &[u8],
    arguments: &[Argument],
) -> Result<(), NoMemory>
    ensures { IfOk result (λ _. out.new.items ≡ out.old.items ++ call word.now (map argument_text arguments.now)) }
{
    out.extend_from_slice(word)?;
    out.extend_from_slice(b"(")?;
    write_list(out, arguments)?;
    out.extend_from_slice(b")")
}

/// Appends a key, after a comma and a blank.
fn write_key(out: &mut Vec<u8>, key: &OrderPath) -> Result<(), NoMemory>
    ensures text { IfOk result (λ _. out.new.items ≡ out.old.items ++ after_comma (key_text key.now)) }
    ensures range { IfOk result (λ _. IsPath key.now.path) }
{
    let sign: &[u8] = if key.descending { b", -" } else { b", +" };
    out.extend_from_slice(sign)?;
    out.extend_from_slice(key.path.text().as_bytes())
}

/// Appends keys, each after a comma and a blank.
pub(crate) fn write_keys(out: &mut Vec<u8>, keys: &[OrderPath]) -> Result<(), NoMemory>
    ensures text { IfOk result (λ _. out.new.items ≡ out.old.items ++ flat_map after_comma (map key_text keys.now)) }
    ensures range { IfOk result (λ _. KeysInRange keys.now) }
{
    let mut rest = keys;
    'keys: while let [key, others @ ..] = rest {
        write_key(out, key)?;
        rest = others;
    }
    Ok(())
}
