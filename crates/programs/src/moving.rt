//! Paths with another beginning.

ghost use Rattle.std.specs.Prelude.{◌≡◌, ◌≤◌, ◌++◌, true, length, string_bytes, IfOk, OnOk};
ghost use Rattle.key_paths.specs.Paths.{IsPath};
ghost use Rattle.key_paths.specs.Substructures.{is_at_or_below};
ghost use Rattle.programs.specs.Moves as spec;
ghost use Rattle.programs.specs.Moves.{moved, path_of, projected};
ghost use Rattle.programs.specs.Outlines.{outlined};
ghost use Rattle.programs.specs.Parts.{Drafts, MovesTo};

use crate::NoMemory;
use crate::drafts::Draft;
use crate::outline::Outline;
use key_paths::{Path, is_path};
use std::alloc::Global;

/// What a path's further segments stand behind: its text, and nothing for the root.
fn stem(p: &Path) -> &str
    ensures value { result.now ≡ spec.stem p.now }
    ensures path { IsPath p.now }
    ensures short { length result.now ≤ 520 }
{
    if p.is_root() { "" } else { p.text() }
}

/// The path of a stem in two parts: where both are empty, the root.
fn path_text(alloc: Global, front: &str, rest: &str) -> Result<String, NoMemory>
    ensures { IfOk result (λ text. string_bytes text ≡ path_of (front.now ++ rest.now)) }
{
    if front.is_empty() && rest.is_empty() {
        return String::from_str(alloc, ".");
    }
    let mut text = String::from_str(alloc, front)?;
    text.push_str(rest)?;
    Ok(text)
}

/// A path at or below `p`, with `q` in place of `p` at its start; `None` where that has more than
/// eight segments.
///
/// # Errors
/// `NoMemory` where the new path's text cannot be had.
pub fn moved_path(alloc: Global, x: &Path, p: &Path, q: &Path) -> Result<Option<Path>, NoMemory>
    requires { is_at_or_below x.now p.now ≡ true }
    ensures moved { IfOk result (λ o. MovesTo o (moved p.now q.now x.now)) }
    ensures from { OnOk result (IsPath p.now) }
    ensures to { OnOk result (IsPath q.now) }
{
    let Some(rest) = stem(x).strip_prefix(stem(p)) else {
        unreachable!()
    };
    let text = path_text(alloc, stem(q), rest)?;
    if !is_path(text.as_bytes()) {
        return Ok(None);
    }
    let path = Path::of(alloc, text.as_str())?;
    Ok(Some(path))
}

/// The paths of an outline at or below `p`, with `q` in place of `p` at their start; `None` where one
/// has more than eight segments.
pub(crate) fn projected_draft(
    alloc: Global,
    a: &Outline,
    p: &Path,
    q: &Path,
) -> Result<Option<Draft>, NoMemory>
    ensures { IfOk result (λ d. Drafts d (outlined a.now.len (projected p.now q.now a.now.paths))) }
{
    let paths = a.paths();
    let mut moved = Vec::new(alloc);
    for path in paths {
        if path.starts_with(p) {
            match moved_path(alloc, path, p, q)? {
                Some(now) => moved.push(now)?,
                None => return Ok(None),
            }
        }
    }
    Ok(Some(Draft::of_paths(a.len(), moved)))
}
