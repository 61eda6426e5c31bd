//! A program that is written part by part.

ghost use Rattle.std.specs.Prelude.{◌≡◌, ◌+◌, ◌++◌, ◌∷◌, [], IfOk, OnOk};
ghost use Rattle.program_writers.specs.Codes.{Adds};
ghost use Rattle.program_writers.specs.Writers as spec;

use io_edge::{Name, NoMemory};
use programs::{Op, Statement};
use std::alloc::{AllocError, Global};

/// The statements that are written so far, and the number of the next name.
#[derive(Drop)]
pub struct Writer {
    alloc: Global,
    statements: Vec<Statement>,
    next: u64,
}

impl Writer {
    /// Nothing is written yet.
    pub fn new(alloc: Global) -> Writer
        ensures statements { result.statements.items ≡ [] }
        ensures next { result.next ≡ 0 }
    {
        Writer {
            alloc,
            statements: Vec::new(alloc),
            next: 0,
        }
    }

    /// The statements, in order.
    pub fn done(self) -> Vec<Statement>
        ensures { result.items ≡ self.statements.items }
    {
        self.statements
    }

    /// A word and the number of the next name.
    #[tactic(auto, using(crate::proofs::Digits::numeral_is))]
    fn numbered(&self, word: &str) -> Result<Name, NoMemory>
        ensures { IfOk result (λ n. n ≡ spec.numbered word.now self.now.next) }
    {
        let next = self.next;
        let text = format!(in self.alloc; "{word}{next}")?;
        Ok(Name::from_string(text))
    }

    /// A number is taken. A program of 2^64 names does not fit in memory, and is refused as such.
    fn take_number(&mut self) -> Result<(), NoMemory>
        ensures taken { OnOk result (self.new.next ≡ self.old.next + 1) }
        ensures statements { self.new.statements.items ≡ self.old.statements.items }
    {
        match self.next.checked_add(1) {
            Some(next) => {
                self.next = next;
                Ok(())
            }
            None => Err(AllocError),
        }
    }

    /// A new name, which the names of some statements may begin with.
    pub fn stem(&mut self, word: &str) -> Result<Name, NoMemory>
        ensures { IfOk result (Adds (spec.stem word.now) self.old self.new) }
    {
        let name = self.numbered(word)?;
        self.take_number()?;
        Ok(name)
    }

    /// Statements that have names already.
    pub fn append(&mut self, statements: Vec<Statement>) -> Result<(), NoMemory>
        ensures { OnOk result (Adds (spec.append statements.items) self.old self.new (record {})) }
    {
        let mut more = statements;
        self.statements.append(&mut more)?;
        Ok(())
    }

    /// A statement.
    fn put(&mut self, name: Name, op: Op) -> Result<(), NoMemory>
        ensures statements { OnOk result (self.new.statements.items ≡ self.old.statements.items ++ spec.statement name op ∷ []) }
        ensures next { self.new.next ≡ self.old.next }
    {
        self.statements.push(Statement { name, op })?;
        Ok(())
    }

    /// A statement under a name, and the name again.
    fn put_under(&mut self, name: Name, op: Op) -> Result<Name, NoMemory>
        ensures statements { OnOk result (self.new.statements.items ≡ self.old.statements.items ++ spec.statement name op ∷ []) }
        ensures next { self.new.next ≡ self.old.next }
        ensures told { IfOk result (λ n. n ≡ name) }
    {
        match name.copied(self.alloc) {
            Ok(told) => {
                self.put(name, op)?;
                Ok(told)
            }
            Err(e) => {
                drop(op);
                Err(e)
            }
        }
    }

    /// One statement under a new name, which it tells.
    pub fn make(&mut self, word: &str, op: Op) -> Result<Name, NoMemory>
        ensures { IfOk result (Adds (spec.make word.now op) self.old self.new) }
    {
        match self.stem(word) {
            Ok(name) => self.put_under(name, op),
            Err(e) => {
                drop(op);
                Err(e)
            }
        }
    }

    /// A result, which takes no number.
    pub fn show(&mut self, name: &str, op: Op) -> Result<(), NoMemory>
        ensures { OnOk result (Adds (spec.show name.now op) self.old self.new (record {})) }
    {
        match Name::of(self.alloc, name) {
            Ok(name) => self.put(name, op),
            Err(e) => {
                drop(op);
                Err(e)
            }
        }
    }
}
