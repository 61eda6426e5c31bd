//! A shelf and a sink in memory, whose calls can be made to fail: for tests of what a run does then.

ghost use Rattle.std.specs.Prelude.{◌≡◌, ◌≤◌, ◌<◌, ◌↔◌, ◌⊎◌, ◌-◌, min, [], length, map, Contains, IsErr, Err, OnOk, OnErr, IfOk, Some, None};
ghost use Rattle.std.specs.Io.{ReadsAtMost};
ghost use Rattle.std.specs.Io.KnownBytes.{ReadConsumes, WriteAppends};
ghost use Rattle.io_edge.specs.Faults.{Rose, HasCause, next_count};
ghost use Rattle.io_edge.specs.Shelves.{Opens};
ghost use Rattle.io_edge.specs.Files.{file_of, named_file};

use crate::files::OpenFiles;
use crate::plan::FaultPlan;
use crate::room::RoomyBytes;
use crate::{Failed, Name, NoMemory, OpenRefusal, Shelf, Sink};
use std::alloc::Global;
use std::marker::Model;

/// A shelf in memory that tells all. Its call number n, counted from 1 over both kinds of calls,
/// fails exactly where n is listed.
#[derive(Drop)]
pub struct MemoryShelf {
    files: OpenFiles,
    plan: FaultPlan,
}

impl Model for MemoryShelf {
    ghost use Rattle.io_edge.specs.Files.{Memory};

    ghost Value = { Memory };

    ghost view = { λ m. record {
      files = m.files.files;
      left = m.files.left;
      fails = m.plan.fails.items;
      calls = m.plan.calls;
      faults = m.plan.faults;
    } };
}

impl MemoryShelf {
    /// A shelf of these files, whose calls with a listed number fail. Of two files of one name the
    /// first counts.
    pub fn new(files: Vec<(Name, Vec<u8>)>, fails: Vec<u32>) -> MemoryShelf
        ensures { result ≡ record {
          files = map named_file files.items;
          left = [];
          fails = fails.items;
          calls = 0;
          faults = 0;
        } }
    {
        MemoryShelf {
            files: OpenFiles::new(files),
            plan: FaultPlan::new(fails),
        }
    }
}

impl Shelf for MemoryShelf {
    ghost holds = { λ m. Some (file_of m.files) };

    ghost left = { λ m. Some m.left };

    ghost faults = { λ m. m.faults };

    fn open_file(&mut self, name: &str) -> Result<(), OpenRefusal>
        ensures same_files { self.new.files ≡ self.old.files }
        ensures same_fails { self.new.fails ≡ self.old.fails }
        ensures later { self.old.faults ≤ self.new.faults }
        ensures calls { self.new.calls ≡ next_count self.old.calls }
        ensures fails { (result ≡ Err OpenRefusal.Failed) ↔ Contains self.old.fails self.new.calls }
        ensures opened { OnOk result (Opens (file_of self.old.files name.now) (Some self.new.left)) }
        ensures closed { OnErr result (self.new.left ≡ []) }
        ensures failed { result ≡ Err OpenRefusal.Failed → Rose self.old.faults self.new.faults }
        ensures missing { result ≡ Err OpenRefusal.Missing → file_of self.old.files name.now ≡ None }
        ensures no_fault { result ≡ Err OpenRefusal.Missing → self.new.faults ≡ self.old.faults }
        ensures stands { OnOk result (self.new.faults ≡ self.old.faults) }
    {
        if self.plan.next_fails() {
            self.files.close();
            return Err(OpenRefusal::Failed);
        }
        if self.files.open(name) {
            Ok(())
        } else {
            Err(OpenRefusal::Missing)
        }
    }

    fn read(&mut self, into: &mut [u8]) -> Result<usize, Failed>
        ensures same_files { self.new.files ≡ self.old.files }
        ensures same_fails { self.new.fails ≡ self.old.fails }
        ensures calls { self.new.calls ≡ next_count self.old.calls }
        ensures fails { IsErr result ↔ Contains self.old.fails self.new.calls }
        ensures bound { ReadsAtMost result into.new }
        ensures count { IfOk result (λ k. k ≡ min (length into.old) (length self.old.left)) }
        ensures bytes { ReadConsumes (Some self.old.left) (Some self.new.left) result into.new }
        ensures cause { HasCause self.old.faults self.new.faults result }
        ensures stands { OnOk result (self.new.faults ≡ self.old.faults) }
    {
        if self.plan.next_fails() {
            return Err(Failed);
        }
        Ok(self.files.read(into))
    }
}

/// A sink in memory that tells what was written. It takes so many bytes of a piece at most, and has
/// so much room. Its call number n, counted from 1, fails exactly where n is listed or the room is
/// used up.
#[derive(Drop)]
pub struct MemorySink {
    tray: RoomyBytes,
    most: usize,
    plan: FaultPlan,
}

impl Model for MemorySink {
    ghost use Rattle.io_edge.specs.Sinks.{Tray};

    ghost Value = { Tray };

    ghost use Rattle.std.specs.Prelude.{◌<◌};

    ghost view = { λ m. record {
      bytes = m.tray.bytes;
      room = m.tray.room;
      most = m.most;
      fails = m.plan.fails.items;
      calls = m.plan.calls;
      faults = m.plan.faults;
    } };

    ghost invariant = { λ m. 0 < m.most };
}

impl MemorySink {
    /// An empty sink with room for so many bytes, which takes at most `most` bytes of a piece. No
    /// write takes memory.
    pub fn with_room(
        alloc: Global,
        room: usize,
        most: usize,
        fails: Vec<u32>,
    ) -> Result<MemorySink, NoMemory>
        requires { 0 < most }
        ensures { IfOk result (λ m. m ≡ record {
          bytes = [];
          room = room;
          most = most;
          fails = fails.items;
          calls = 0;
          faults = 0;
        }) }
    {
        Ok(MemorySink {
            tray: RoomyBytes::with_room(alloc, room)?,
            most,
            plan: FaultPlan::new(fails),
        })
    }

    /// What was written.
    pub fn bytes(&self) -> &[u8]
        ensures { result.now ≡ self.now.bytes }
    {
        self.tray.bytes()
    }
}

impl Sink for MemorySink {
    ghost written = { λ m. Some m.bytes };

    ghost faults = { λ m. m.faults };

    fn write(&mut self, piece: &[u8]) -> Result<usize, Failed>
        ensures bound { IfOk result (λ k. k ≤ length piece.now) }
        ensures some { IfOk result (λ k. 0 < length piece.now → 0 < k) }
        ensures count { IfOk result (λ k. k ≡ min (min (length piece.now) self.old.most) (self.old.room - length self.old.bytes)) }
        ensures bytes { WriteAppends (Some self.old.bytes) (Some self.new.bytes) result piece.now }
        ensures cause { HasCause self.old.faults self.new.faults result }
        ensures stands { OnOk result (self.new.faults ≡ self.old.faults) }
        ensures calls { self.new.calls ≡ next_count self.old.calls }
        ensures fails { IsErr result ↔ (Contains self.old.fails self.new.calls
            ⊎ (0 < length piece.now × (self.old.room ≤ length self.old.bytes))) }
        ensures same_plan { self.new.fails ≡ self.old.fails }
        ensures same_room { self.new.room ≡ self.old.room }
        ensures same_most { self.new.most ≡ self.old.most }
    {
        if self.plan.next_fails() {
            return Err(Failed);
        }
        let count = self.tray.append(piece, self.most);
        if count == 0 && !piece.is_empty() {
            self.plan.count_fault();
            return Err(Failed);
        }
        Ok(count)
    }
}
