//! A shelf and a sink in memory that never fail while there is room.

ghost use Rattle.std.specs.Prelude.{◌≡◌, ◌≤◌, ◌<◌, ◌↔◌, ◌-◌, min, [], length, map, IsErr, IfOk, OnOk, Some};
ghost use Rattle.std.specs.Io.KnownBytes.{WriteAppends};
ghost use Rattle.io_edge.specs.Faults.{HasCause};
ghost use Rattle.io_edge.specs.Files.{file_of, named_file};

use crate::files::OpenFiles;
use crate::room::RoomyBytes;
use crate::{Failed, Name, NoMemory, OpenRefusal, Shelf, Sink};
use std::alloc::Global;
use std::marker::Model;

/// A shelf in memory that tells all and never fails: its count of faults is 0.
#[derive(Drop)]
pub struct SteadyShelf {
    files: OpenFiles,
}

impl Model for SteadyShelf {
    ghost use Rattle.io_edge.specs.Files.{OpenFiles};

    ghost Value = { OpenFiles };

    ghost view = { λ m. m.files };
}

impl SteadyShelf {
    /// A shelf of these files. Of two files of one name the first counts.
    pub fn new(files: Vec<(Name, Vec<u8>)>) -> SteadyShelf
        ensures { result ≡ record { files = map named_file files.items; left = [] } }
    {
        SteadyShelf {
            files: OpenFiles::new(files),
        }
    }
}

impl Shelf for SteadyShelf {
    ghost holds = { λ m. Some (file_of m.files) };

    ghost left = { λ m. Some m.left };

    ghost faults = { λ _. 0 };

    fn open_file(&mut self, name: &str) -> Result<(), OpenRefusal> {
        if self.files.open(name) {
            Ok(())
        } else {
            Err(OpenRefusal::Missing)
        }
    }

    fn read(&mut self, into: &mut [u8]) -> Result<usize, Failed> {
        Ok(self.files.read(into))
    }
}

/// A sink in memory that tells what was written, and fails exactly where a piece that isn't empty
/// finds its room used up: its count of faults is 0 while fewer bytes than its room are written.
#[derive(Drop)]
pub struct SteadySink {
    tray: RoomyBytes,
    faults: u64,
}

impl Model for SteadySink {
    ghost use Rattle.io_edge.specs.Sinks.{Steady};

    ghost Value = { Steady };

    ghost use Rattle.std.specs.Prelude.{◌≡◌, ◌<◌, length};

    ghost view = { λ m. record { bytes = m.tray.bytes; room = m.tray.room; faults = m.faults } };

    ghost invariant = { λ m. length m.tray.bytes < m.tray.room → m.faults ≡ 0 };
}

impl SteadySink {
    /// An empty sink with room for so many bytes. No write takes memory.
    pub fn with_room(alloc: Global, room: usize) -> Result<SteadySink, NoMemory>
        ensures { IfOk result (λ m. m ≡ record { bytes = []; room = room; faults = 0 }) }
    {
        Ok(SteadySink {
            tray: RoomyBytes::with_room(alloc, room)?,
            faults: 0,
        })
    }

    /// What was written.
    pub fn bytes(&self) -> &[u8]
        ensures { result.now ≡ self.now.bytes }
    {
        self.tray.bytes()
    }
}

impl Sink for SteadySink {
    ghost written = { λ m. Some m.bytes };

    ghost faults = { λ m. m.faults };

    fn write(&mut self, piece: &[u8]) -> Result<usize, Failed>
        ensures bound { IfOk result (λ k. k ≤ length piece.now) }
        ensures some { IfOk result (λ k. 0 < length piece.now → 0 < k) }
        ensures count { IfOk result (λ k. k ≡ min (length piece.now) (self.old.room - length self.old.bytes)) }
        ensures bytes { WriteAppends (Some self.old.bytes) (Some self.new.bytes) result piece.now }
        ensures cause { HasCause self.old.faults self.new.faults result }
        ensures stands { OnOk result (self.new.faults ≡ self.old.faults) }
        ensures fails { IsErr result ↔ (0 < length piece.now × (self.old.room ≤ length self.old.bytes)) }
        ensures steady { length self.new.bytes < self.new.room → self.new.faults ≡ 0 }
        ensures same_room { self.new.room ≡ self.old.room }
    {
        let count = self.tray.append(piece, piece.len());
        if count == 0 && !piece.is_empty() {
            self.faults = self.faults.saturating_add(1);
            return Err(Failed);
        }
        Ok(count)
    }
}
