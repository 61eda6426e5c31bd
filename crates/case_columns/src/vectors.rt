//! Vectors of one attribute or two, and a store that has one.

ghost use Rattle.std.specs.Prelude.{◌≤◌, ◌^◌, All, IfOk, vec_len};
ghost use Rattle.key_paths.specs.Paths.{IsPath};
ghost use Rattle.struct_vectors.specs.Vectors.{IsBelowRoot, paths_of};

use crate::lists::{column, show};
use io_edge::Name;
use key_paths::Path;
use std::alloc::{AllocError, Global};
use struct_vectors::{Column, ShapeRefusal, Store, StructVector};

/// The path that a word of a text spells, below the root.
pub fn path(alloc: Global, text: &str, k: usize) -> Result<Path, AllocError>
    ensures path { IfOk result IsPath }
    ensures named { IfOk result IsBelowRoot }
{
    let word = text.split_whitespace().nth(k).unwrap_or("");
    if word.len() > 1000 {
        return Err(AllocError);
    }
    let Ok(path) = Path::read(alloc, word) else {
        return Err(AllocError);
    };
    if path.is_root() {
        return Err(AllocError);
    }
    Ok(path)
}

/// The attribute of a text: its path, then its slots.
fn attribute(alloc: Global, text: &str) -> Result<(Path, Column), AllocError>
    ensures path { IfOk result (λ a. IsPath a.0) }
    ensures named { IfOk result (λ a. IsBelowRoot a.0) }
{
    let path = path(alloc, text, 0)?;
    let (_, slots) = text.trim_start().split_once(' ').unwrap_or(("", ""));
    Ok((path, column(alloc, slots)?))
}

/// Two attributes as a list, or the first alone where the second has no text.
fn attributes(alloc: Global, first: &str, second: &str) -> Result<Vec<(Path, Column)>, AllocError>
    ensures some { IfOk result (λ v. 1 ≤ vec_len v) }
    ensures few { IfOk result (λ v. vec_len v ≤ 2) }
    ensures paths { IfOk result (λ v. All IsPath (paths_of v.items)) }
    ensures named { IfOk result (λ v. All (λ a. IsBelowRoot a.0) v.items) }
{
    let mut attributes = Vec::new(alloc);
    attributes.push(attribute(alloc, first)?)?;
    if !second.trim().is_empty() {
        attributes.push(attribute(alloc, second)?)?;
    }
    Ok(attributes)
}

/// The vector of an attribute or two.
pub fn vector(
    alloc: Global,
    n: u32,
    first: &str,
    second: &str,
) -> Result<StructVector, ShapeRefusal>
    requires { n ≤ 2 ^ 22 }
{
    StructVector::new(alloc, n, attributes(alloc, first, second)?)
}

/// The length, the paths in order, and the columns in the same order.
pub fn show_vector(to: &mut String, v: &StructVector) -> Result<(), AllocError> {
    write!(to, " {} places", v.len())?;
    for path in v.paths() {
        write!(to, " {}", path.text())?;
    }
    for column in v.columns() {
        to.push_str(" |")?;
        show(to, column)?;
    }
    Ok(())
}

/// The length of the attribute that a text spells.
pub fn len_of(text: &str) -> u32
    ensures { result ≤ 1000 }
{
    (text.split_whitespace().count().min(1001) as u32).saturating_sub(1)
}

/// The store that has the vector of these attributes under the name `t`.
pub fn store(alloc: Global, first: &str, second: &str) -> Result<Store, AllocError> {
    let Ok(v) = vector(alloc, len_of(first), first, second) else {
        return Err(AllocError);
    };
    let name = Name::of(alloc, "t")?;
    let mut vectors = Vec::new(alloc);
    vectors.push((name, v))?;
    Ok(Store::new(vectors))
}
