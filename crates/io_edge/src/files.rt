//! A list of files in memory, of which one may be open.

ghost use Rattle.std.specs.Prelude.{◌≡◌, ◌≤◌, ◌<◌, ◌+◌, ◌-◌, ◌^◌, ◌++◌, min, length, take, drop, map, Some, None, [], IsTrue, MatchOption, MatchBool};
ghost use Rattle.io_edge.specs.Files.{file_of, bytes_at, named_file};

use crate::Name;
use std::marker::Model;

/// Files in memory. Contracts see them as a list of names and bytes, and what is left of the open one.
#[derive(Drop)]
pub(crate) struct OpenFiles {
    files: Vec<(Name, Vec<u8>)>,
    /// The place of the open file, or the number of files where none is open.
    file: usize,
    /// How many bytes of it were read.
    at: usize,
}

impl Model for OpenFiles {
    ghost use Rattle.io_edge.specs.Files.{OpenFiles};

    ghost Value = { OpenFiles };

    ghost use Rattle.std.specs.Prelude.{map, drop, length, ◌≤◌};
    ghost use Rattle.io_edge.specs.Files.{named_file, bytes_at};

    ghost view = { λ m. record {
      files = map named_file m.files.items;
      left = drop m.at (bytes_at (map named_file m.files.items) m.file);
    } };

    ghost invariant = { λ m. m.at ≤ length (bytes_at (map named_file m.files.items) m.file) };
}

impl OpenFiles {
    pub(crate) fn new(files: Vec<(Name, Vec<u8>)>) -> OpenFiles
        ensures { result ≡ record { files = map named_file files.items; left = [] } }
    {
        let file = files.len();
        OpenFiles { files, file, at: 0 }
    }

    /// Closes the open file.
    pub(crate) fn close(&mut self)
        ensures { self.new ≡ record { files = self.old.files; left = [] } }
    {
        self.at = 0;
        self.file = self.files.len();
    }

    /// Opens the first file of that name, and says whether there is one.
    pub(crate) fn open(&mut self, name: &str) -> bool
        ensures same_files { self.new.files ≡ self.old.files }
        ensures opened { MatchBool result
            (file_of self.old.files name.now ≡ Some self.new.left)
            ((file_of self.old.files name.now ≡ None) × (self.new.left ≡ [])) }
    {
        self.at = 0;
        match place_of(self.files.as_slice(), name) {
            None => {
                self.file = self.files.len();
                false
            }
            Some(i) => {
                self.file = i;
                true
            }
        }
    }

    /// Reads as many bytes as there are and fit.
    pub(crate) fn read(&mut self, into: &mut [u8]) -> usize
        ensures same_files { self.new.files ≡ self.old.files }
        ensures count { result ≡ min (length into.old) (length self.old.left) }
        ensures bytes { self.old.left ≡ take result into.new ++ self.new.left }
    {
        let count = copied(self.files.as_slice(), self.file, self.at, into);
        self.at += count;
        count
    }
}

/// The place of the first file of a name.
fn place_of(files: &[(Name, Vec<u8>)], name: &str) -> Option<usize>
    ensures { MatchOption result
        (file_of (map named_file files.now) name.now ≡ None)
        (λ i. file_of (map named_file files.now) name.now ≡ Some (bytes_at (map named_file files.now) i)) }
{
    for (i, file) in files.iter().enumerate() {
        if file.0.text() == name {
            return Some(i);
        }
    }
    None
}

/// Copies bytes of a file from a place on, as many as there are and fit.
fn copied(files: &[(Name, Vec<u8>)], file: usize, at: usize, into: &mut [u8]) -> usize
    requires { at ≤ length (bytes_at (map named_file files.now) file) }
    ensures bound { at + result ≤ length (bytes_at (map named_file files.now) file) }
    ensures fits { at + result < 2 ^ 64 }
    ensures count { result ≡ min (length into.old) (length (bytes_at (map named_file files.now) file) - at) }
    ensures bytes { take result into.new ≡ take result (drop at (bytes_at (map named_file files.now) file)) }
{
    let Some(held) = files.get(file) else {
        return 0;
    };
    let rest = &held.1.as_slice()[at..];
    let count = rest.len().min(into.len());
    into[..count].copy_from_slice(&rest[..count]);
    count
}
