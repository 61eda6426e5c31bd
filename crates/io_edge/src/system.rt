//! The real outside: files by path, and std's streams. The trusted edge, of a few lines each.

ghost use Rattle.std.specs.Prelude.{None};

use crate::{Failed, OpenRefusal, Shelf, Sink};
use std::fs;
use std::io::{Read, Write};
use std::rt::Files;

/// Opens files by path. It tells nothing of their content, and counts each failure.
#[derive(Drop)]
pub struct DirShelf<R: Files + Drop> {
    rt: R,
    file: Option<R::File>,
    faults: u64,
}

impl<R: Files + Drop> DirShelf<R> {
    /// A shelf over the runtime's files, of which none is open.
    pub fn new(rt: R) -> DirShelf<R> {
        DirShelf {
            rt,
            file: None,
            faults: 0,
        }
    }
}

impl<R: Files + Drop> Shelf for DirShelf<R> {
    ghost holds = { λ _. None };

    ghost left = { λ _. None };

    ghost faults = { λ s. s.faults };

    fn open_file(&mut self, name: &str) -> Result<(), OpenRefusal> {
        self.file = None;
        match fs::open(&self.rt, name) {
            Ok(file) => {
                self.file = Some(file);
                Ok(())
            }
            Err(_) => {
                self.faults = self.faults.saturating_add(1);
                Err(OpenRefusal::Failed)
            }
        }
    }

    fn read(&mut self, into: &mut [u8]) -> Result<usize, Failed> {
        let Some(file) = &mut self.file else {
            return Ok(0);
        };
        match file.read(into) {
            Ok(count) => Ok(count),
            Err(_) => {
                self.faults = self.faults.saturating_add(1);
                Err(Failed)
            }
        }
    }
}

/// Writes to a std writer, and flushes after each write. It tells nothing of what was written, and
/// counts each failure.
#[derive(Drop)]
pub struct StreamSink<W: Write + Drop> {
    writer: W,
    faults: u64,
}

impl<W: Write + Drop> StreamSink<W> {
    /// A sink over that writer.
    pub fn new(writer: W) -> StreamSink<W> {
        StreamSink { writer, faults: 0 }
    }
}

impl<W: Write + Drop> Sink for StreamSink<W> {
    ghost written = { λ _. None };

    ghost faults = { λ s. s.faults };

    fn write(&mut self, piece: &[u8]) -> Result<usize, Failed> {
        let written = self.writer.write(piece);
        let flushed = self.writer.flush();
        match (written, flushed) {
            (Ok(count), Ok(())) if count > 0 || piece.is_empty() => Ok(count),
            _ => {
                self.faults = self.faults.saturating_add(1);
                Err(Failed)
            }
        }
    }
}
