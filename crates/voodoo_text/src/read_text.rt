//! Programs read.

ghost use Rattle.std.specs.Prelude.{◌≡◌, ℕ, ◌≤◌, ◌<◌, ◌^◌, ◌+◌, ◌++◌, [], ◌∷◌, length, IfOk};
ghost use Rattle.std.specs.List.{position_or_len};
ghost use Rattle.voodoo_text.specs.Tokens.{tokens};
ghost use Rattle.voodoo_text.specs.Reading as spec;
ghost use Rattle.voodoo_text.specs.Reading.{Gives, TakesLine, is_feed, lines, with_line, read_lines, read_text};
ghost use Rattle.voodoo_text.specs.Spelled.{CanBeSpelled};

use crate::NoMemory;
use crate::line::Line;
use crate::refusal::{TextKind, TextRefusal};
use crate::statements::line_of;
use phrases::ReadError;
use programs::{Program, Statement};
use std::alloc::Global;
use std::marker::Model;

/// The lines of statements, counted from 1. Contracts see the list of them.
#[derive(Drop)]
pub struct LineNumbers {
    numbers: Vec<u32>,
}

impl Model for LineNumbers {
    ghost use Rattle.std.specs.Prelude.{List, ℕ};

    ghost Value = { List ℕ };

    ghost view = { λ l. l.numbers.items };
}

impl LineNumbers {
    /// These lines.
    pub fn new(numbers: Vec<u32>) -> LineNumbers
        ensures { result ≡ numbers.items }
    {
        LineNumbers { numbers }
    }

    /// The lines, in order.
    pub fn numbers(&self) -> &[u32]
        ensures { result.now ≡ self.now }
    {
        self.numbers.as_slice()
    }
}

/// A program, and the line on which each of its statements stands.
#[derive(Drop)]
pub struct ReadProgram {
    pub program: Program,
    pub lines: LineNumbers,
}

/// How many bytes stand before the first line feed.
fn line_len(bytes: &[u8]) -> usize
    ensures value { result ≡ position_or_len is_feed bytes.now }
    ensures within { result ≤ length bytes.now }
{
    bytes.iter().take_while(|byte| **byte != b'\n').count()
}

/// The bytes before the first line feed, and those behind it.
fn cut(bytes: &[u8]) -> (&[u8], &[u8])
    requires { 0 < length bytes.now }
    ensures first { (n : ℕ) → read_lines n (lines bytes.now) ≡ with_line n (tokens result.0.now) (read_lines (n + 1) (lines result.1.now)) }
    ensures within { length result.0.now ≤ length bytes.now }
    ensures shorter { length result.1.now < length bytes.now }
{
    let len = line_len(bytes);
    let line = &bytes[..len];
    if len < bytes.len() {
        (line, &bytes[len + 1..])
    } else {
        (line, b"")
    }
}

/// The refusal of a line.
fn refusal(number: u32, error: ReadError<TextKind>) -> TextRefusal
    ensures { result ≡ spec.refusal number error }
{
    match error {
        ReadError::Refused(kind, _left) => TextRefusal::Bad { line: number, kind },
        ReadError::NoMemory => TextRefusal::NoMemory,
    }
}

/// Appends a statement.
fn append_statement(statements: &mut Vec<Statement>, statement: Statement) -> Result<(), NoMemory>
    ensures { IfOk result (λ _. statements.new.items ≡ statements.old.items ++ statement ∷ []) }
{
    Ok(statements.push(statement)?)
}

/// Appends a line's number.
fn append_number(numbers: &mut Vec<u32>, number: u32) -> Result<(), NoMemory>
    ensures { IfOk result (λ _. numbers.new.items ≡ numbers.old.items ++ number ∷ []) }
{
    Ok(numbers.push(number)?)
}

/// Appends the statement of a line, if it has one, and the line's number.
fn take_line(
    alloc: Global,
    number: u32,
    line: &[u8],
    statements: &mut Vec<Statement>,
    numbers: &mut Vec<u32>,
) -> Result<(), TextRefusal>
    requires { length line.now < 2 ^ 32 }
    ensures line { TakesLine number (tokens line.now) statements.old.items numbers.old.items result statements.new.items numbers.new.items }
    ensures names { IfOk result (λ _. CanBeSpelled statements.old.items → CanBeSpelled statements.new.items) }
{
    let mut tokens = Line::new(line);
    if tokens.is_at_end() {
        return Ok(());
    }
    match line_of(alloc, &mut tokens) {
        Ok(statement) => {
            append_statement(statements, statement)?;
            append_number(numbers, number)?;
            Ok(())
        }
        Err(error) => Err(refusal(number, error)),
    }
}

/// The program of a text that is UTF-8.
fn read_lines(alloc: Global, bytes: &[u8]) -> Result<ReadProgram, TextRefusal>
    requires { length bytes.now < 2 ^ 32 }
    ensures value { Gives (spec.read_lines 1 (lines bytes.now)) result }
    ensures names { IfOk result (λ read. CanBeSpelled read.program) }
{
    let mut statements = Vec::new(alloc);
    let mut numbers = Vec::new(alloc);
    let mut rest = bytes;
    let mut number: usize = 1;
    'lines: while !rest.is_empty() {
        let (line, others) = cut(rest);
        take_line(alloc, number as u32, line, &mut statements, &mut numbers)?;
        rest = others;
        number += 1;
    }
    Ok(ReadProgram {
        program: Program::new(statements),
        lines: LineNumbers::new(numbers),
    })
}

/// The program that a text spells, in whatever way it is spaced, or the first line that is refused.
///
/// A text is UTF-8. Spaces, tabs and carriage returns are free between tokens, a `#` begins a comment
/// to the line's end, and a line may be empty. What is read can be printed by `program_text`. Memory
/// may run out.
#[tactic(auto, unfolding(crate::specs::Reading::read_text))]
pub fn read_program(alloc: Global, bytes: &[u8]) -> Result<ReadProgram, TextRefusal>
    requires { length bytes.now < 2 ^ 32 }
    ensures value { Gives (read_text bytes.now) result }
    ensures names { IfOk result (λ read. CanBeSpelled read.program) }
{
    match str::from_utf8(bytes) {
        Ok(_text) => read_lines(alloc, bytes),
        Err(_) => Err(TextRefusal::Bad {
            line: 1,
            kind: TextKind::NotText,
        }),
    }
}
