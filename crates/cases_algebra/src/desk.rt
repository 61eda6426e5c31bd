//! The program that is put together, and the table that it reads.

use case_columns::store;
use case_text::spelled;
use std::alloc::{AllocError, Global};
use struct_vectors::Store;

/// The table as it was written, what stands before each program, and the lines of the one that is put together.
#[derive(Drop)]
pub struct Desk {
    table: String,
    before: Vec<u8>,
    lines: Vec<u8>,
}

impl Desk {
    pub fn new(alloc: Global) -> Desk {
        Desk {
            table: String::new(alloc),
            before: Vec::new(alloc),
            lines: Vec::new(alloc),
        }
    }

    pub fn set_table(&mut self, alloc: Global, text: &str) -> Result<(), AllocError> {
        self.table = String::from_str(alloc, text)?;
        Ok(())
    }

    /// Adds a line to the program.
    pub fn add_line(&mut self, alloc: Global, text: &str) -> Result<(), AllocError> {
        let line = spelled(alloc, text.as_bytes())?;
        self.lines.extend_from_slice(line.as_slice())?;
        self.lines.push(b'\n')?;
        Ok(())
    }

    /// What was added stands before each program from here on.
    pub fn keep(&mut self, alloc: Global) -> Result<(), AllocError> {
        self.before = Vec::from_slice(alloc, self.lines.as_slice())?;
        self.lines.clear();
        Ok(())
    }

    /// The program, with a text behind it. The next one is empty.
    pub fn take(&mut self, alloc: Global, text: &str) -> Result<Vec<u8>, AllocError> {
        let last = spelled(alloc, text.as_bytes())?;
        let mut program = Vec::from_slice(alloc, self.before.as_slice())?;
        program.extend_from_slice(self.lines.as_slice())?;
        program.extend_from_slice(last.as_slice())?;
        self.lines.clear();
        Ok(program)
    }

    /// The store of the table.
    pub fn store(&self, alloc: Global) -> Result<Store, AllocError> {
        let text = self.table.as_str();
        let (first, second) = text.split_once('|').unwrap_or((text, ""));
        store(alloc, first, second)
    }
}
