//! The files that a run may read.

ghost use Rattle.std.specs.Prelude.{◌≡◌, ◌≤◌, ℕ, List, Option, OnOk, OnErr, IfSome, Err};
ghost use Rattle.std.specs.Io.{ReadsAtMost};
ghost use Rattle.std.specs.Io.KnownBytes.{ReadConsumes, IsAtEnd};
ghost use Rattle.io_edge.specs.Faults.{Rose, HasCause};
ghost use Rattle.io_edge.specs.Shelves.{FileMap, Lacks, Opens};

/// The outside failed. What it failed at, the object's count of faults tells.
#[derive(Clone, Copy)]
pub struct Failed;

/// Why a file wasn't opened.
#[derive(Clone, Copy)]
pub enum OpenRefusal {
    /// The shelf tells what it holds, and there is no file of that name.
    Missing,
    /// The outside failed: the count of faults rose.
    Failed,
}

/// Files by name, of which at most one is open.
///
/// What a shelf holds and what is left of the open file are optional: a shelf over a disk tells
/// nothing, and clauses on content then say nothing. Its count of faults never falls.
pub trait Shelf {
    /// The bytes of each file by its name, where the shelf tells them. No call changes them.
    ghost holds: { Self → Option FileMap };

    /// The bytes left of the file that was opened last, where the shelf tells them: none where no
    /// file is open.
    ghost left: { Self → Option (List ℕ) };

    /// How often the outside failed: at most 2^64 - 1, where it stands still.
    ghost faults: { Self → ℕ };

    /// Opens the file of that name in place of the one that was open. After a refusal none is open.
    fn open_file(&mut self, name: &str) -> Result<(), OpenRefusal>
        ensures same_files { holds self.new ≡ holds self.old }
        ensures later { faults self.old ≤ faults self.new }

        ensures opened { OnOk result (IfSome (holds self.old) (λ files. Opens (files name.now) (left self.new))) }
        ensures closed { OnErr result (IsAtEnd (left self.new)) }

        ensures failed { result ≡ Err OpenRefusal.Failed → Rose (faults self.old) (faults self.new) }
        ensures missing { result ≡ Err OpenRefusal.Missing → Lacks (holds self.old) name.now }
        ensures no_fault { result ≡ Err OpenRefusal.Missing → faults self.new ≡ faults self.old };

    /// Reads the next bytes of the open file into the front of `into`, and says how many. 0 at a
    /// buffer that isn't empty is the file's end.
    fn read(&mut self, into: &mut [u8]) -> Result<usize, Failed>
        ensures same_files { holds self.new ≡ holds self.old }
        ensures bound { ReadsAtMost result into.new }
        ensures bytes { ReadConsumes (left self.old) (left self.new) result into.new }
        ensures cause { HasCause (faults self.old) (faults self.new) result };
}
