//! Paths.
ghost use Rattle.std.specs.Prelude.{◌≡◌, ◌^◌, ◌<◌, Some, length, drop, nat_eq, IfOk, IfErr};
ghost use Rattle.std.specs.Cmp.{partial_equiv_from_equiv};
ghost use Rattle.std.specs.Cmp.Lexicographic.{pointwise, slice_cmp, nat_list_eq_equiv, nat_list_cmp_total, texts_po, texts_ties};
ghost use Rattle.std.specs.Ordering.{nat_cmp};
ghost use Rattle.std.proofs.Common.{refl};
ghost use Rattle.key_paths.specs.Paths.{IsPath, Refuses};
ghost use Rattle.key_paths.specs.Substructures.{is_root, begins_segment_or_ends, is_at_or_below};

use crate::NoMemory;
use crate::reading::first_fault;
use crate::refusal::PathRefusal;
use std::alloc::Global;
use std::cmp::Ordering;
use std::fmt;
use std::marker::Model;

/// The name of an attribute: `.` alone, which is the root, or 1 to 8 segments, each after a dot. A
/// segment is an ASCII letter or `_` and then letters, digits and `_`, at most 64 bytes.
///
/// Paths are ordered by their bytes. Since no byte of a segment is below the dot, what stands at or
/// below a path is one stretch of an ascending list of paths.
#[derive(Debug, Drop)]
pub struct Path {
    text: String,
}

impl Model for Path {
    ghost use Rattle.std.specs.Prelude.{List, ℕ, string_bytes};
    ghost use Rattle.key_paths.specs.Paths.{IsPath};

    ghost Value = { List ℕ };

    ghost view = { λ p. string_bytes p.text };

    ghost invariant = { λ p. IsPath (string_bytes p.text) };
}

impl Path {
    /// The path that `text` spells.
    pub fn read(alloc: Global, text: &str) -> Result<Path, PathRefusal>
        requires { length text.now < 2 ^ 32 }
        ensures value { IfOk result (λ path. path ≡ text.now) }
        ensures accepted { IfOk result (λ _. IsPath text.now) }
        ensures refused { IfErr result (Refuses text.now) }
    {
        if let Some((at, kind)) = first_fault(text.as_bytes()) {
            return Err(PathRefusal::Bad { at, kind });
        }
        Ok(Path::of(alloc, text)?)
    }

    /// The path that `text` spells, which is one. It fails only for want of memory.
    pub fn of(alloc: Global, text: &str) -> Result<Path, NoMemory>
        requires { IsPath text.now }
        ensures { IfOk result (λ path. path ≡ text.now) }
    {
        Ok(Path {
            text: String::from_str(alloc, text)?,
        })
    }

    /// Whether the path is `prefix` or lies below it: whether its segments begin with those of
    /// `prefix`.
    pub fn starts_with(&self, prefix: &Path) -> bool
        ensures below { result ≡ is_at_or_below self.now prefix.now }
        ensures path { IsPath self.now }
        ensures prefix_path { IsPath prefix.now }
    {
        let path = self.text.as_bytes();
        let above = prefix.text.as_bytes();
        is_root(above) || (path.starts_with(above) && ends_segment(path, above.len()))
    }

    /// Whether the path is `.`, the root.
    pub fn is_root(&self) -> bool
        ensures root { result ≡ is_root self.now }
        ensures path { IsPath self.now }
    {
        is_root(self.text.as_bytes())
    }

    /// The path's text.
    pub fn text(&self) -> &str
        ensures text { result.now ≡ self.now }
        ensures path { IsPath self.now }
    {
        self.text.as_str()
    }

    /// Another path with the same text.
    pub fn copied(&self, alloc: Global) -> Result<Path, NoMemory>
        ensures text { IfOk result (λ path. path ≡ self.now) }
        ensures path { IsPath self.now }
    {
        Path::of(alloc, self.text.as_str())
    }
}

/// Whether a path's text is the root's.
fn is_root(text: &[u8]) -> bool
    ensures { result ≡ is_root text.now }
{
    text == b".".as_slice()
}

/// Whether a text ends at a place, or goes on with a dot.
fn ends_segment(text: &[u8], at: usize) -> bool
    ensures { result ≡ begins_segment_or_ends (drop at text.now) }
{
    match text.get(at) {
        None => true,
        Some(byte) => *byte == b'.',
    }
}

impl fmt::Display for Path {
    ghost output = { λ path. Some path };

    fn fmt<W: fmt::Write>(&self, f: &mut fmt::Formatter<W>) -> fmt::Result {
        f.write_str(self.text.as_str())
    }
}

impl PartialEq for Path {
    ghost eq = { pointwise nat_eq };

    ghost laws = { partial_equiv_from_equiv nat_list_eq_equiv };

    fn eq(&self, other: &Path) -> bool {
        self.text.as_str() == other.text.as_str()
    }
}

impl Eq for Path {
    ghost laws = { nat_list_eq_equiv };
}

impl PartialOrd for Path {
    ghost partial_cmp = { λ p q. Some (slice_cmp nat_cmp p q) };

    ghost laws = { texts_po };

    fn partial_cmp(&self, other: &Path) -> Option<Ordering> {
        Some(self.cmp(other))
    }
}

impl Ord for Path {
    ghost cmp = { slice_cmp nat_cmp };

    ghost total = { nat_list_cmp_total };

    ghost matches_partial_cmp = { λ p q. refl };

    ghost matches_eq = { texts_ties };

    fn cmp(&self, other: &Path) -> Ordering {
        self.text.as_str().cmp(other.text.as_str())
    }
}
