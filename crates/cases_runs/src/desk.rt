//! The files on the shelf, and how the outside fails.

use case_text::spelled;
use io_edge::Name;
use std::alloc::{AllocError, Global};

/// The files by name, and which calls fail.
#[derive(Drop)]
pub struct Desk {
    files: Vec<(Name, Vec<u8>)>,
    pub fails: [u32; 3],
    pub out: (u32, u32),
    pub err: (u32, u32),
}

impl Desk {
    pub fn new(alloc: Global) -> Desk {
        Desk {
            files: Vec::new(alloc),
            fails: [0, 0, 0],
            out: (1000, 1000),
            err: (1000, 1000),
        }
    }

    /// From here on these calls of the shelf, of standard output and of standard error fail.
    pub fn fail(&mut self, shelf: u32, out: u32, err: u32) {
        self.fails = [shelf, out, err];
    }

    /// From here on the sinks have so much room and take so many bytes a call.
    pub fn narrow(&mut self, room: u32, most: u32, err_room: u32, err_most: u32) {
        self.out = (room, most);
        self.err = (err_room, err_most);
    }

    /// Puts a file on the shelf in place of the one that has its name. An empty text takes it off.
    pub fn put(&mut self, alloc: Global, name: &str, text: &str) -> Result<(), AllocError> {
        self.files.retain(|file| file.0.text() != name);
        if !text.is_empty() {
            let file = (Name::of(alloc, name)?, spelled(alloc, text.as_bytes())?);
            self.files.push(file)?;
        }
        Ok(())
    }

    /// The files, copied.
    pub fn files(&self, alloc: Global) -> Result<Vec<(Name, Vec<u8>)>, AllocError> {
        let mut files = Vec::new(alloc);
        for file in &self.files {
            files.push((
                file.0.copied(alloc)?,
                Vec::from_slice(alloc, file.1.as_slice())?,
            ))?;
        }
        Ok(files)
    }
}
