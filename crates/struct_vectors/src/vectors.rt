//! Structured vectors.
ghost use Rattle.std.specs.Prelude.{◌≡◌, ◌+◌, ◌^◌, ◌<◌, ◌≤◌, ◌∷◌, [], length, vec_len, MatchOption, IfOk, IfErr};
ghost use Rattle.std.specs.Option.{option_copied};
ghost use Rattle.std.specs.List.{All};
ghost use Rattle.std.specs.Map.{lookup};
ghost use Rattle.std.specs.Str.{bytes_eq};
ghost use Rattle.std.specs.List.Sorted.{IsPermutation, IsSortedByKey};
ghost use Rattle.std.specs.Cmp.Lexicographic.{slice_cmp};
ghost use Rattle.key_paths.specs.Paths.{IsPath};
ghost use Rattle.std.specs.Ordering.{nat_cmp};
ghost use Rattle.struct_vectors.specs.Vectors.{vector_of, IsShaped, IsArranged, IsBelowRoot, HaveLength, IsFirstOther, IsClashAt, HasNoClash, paths_of, columns_of};
ghost use Rattle.struct_vectors.specs.Refusals.{Refuses, NamesNeighbours};

use crate::NoMemory;
use crate::columns::Column;
use crate::shapes::ShapeRefusal;
use key_paths::Path;
use std::alloc::Global;
use std::marker::Model;

/// Columns of one length, each named by a path. They are ascending by path, and no path is the root,
/// equal to another or a prefix of another.
#[derive(Drop)]
pub struct StructVector {
    count: u32,
    paths: Vec<Path>,
    columns: Vec<Column>,
}

impl Model for StructVector {
    ghost use Rattle.std.specs.Prelude.{◌≡◌, length};
    ghost use Rattle.std.specs.List.{zip};
    ghost use Rattle.struct_vectors.specs.Vectors.{VectorValue, vector_of, IsShaped};

    ghost Value = { VectorValue };

    ghost view = { λ v. vector_of v.count (zip v.paths.items v.columns.items) };

    ghost invariant = { λ v. (length v.columns.items ≡ length v.paths.items)
        × IsShaped (vector_of v.count (zip v.paths.items v.columns.items)) };
}

impl StructVector {
    /// The vector of `n` slots with these attributes, in whatever order they come.
    pub fn new(
        alloc: Global,
        n: u32,
        attributes: Vec<(Path, Column)>,
    ) -> Result<StructVector, ShapeRefusal>
        requires short { n ≤ 2 ^ 22 }
        requires some { 1 ≤ vec_len attributes }
        requires few { vec_len attributes < 2 ^ 32 }
        requires named { All (λ a. IsBelowRoot a.0) attributes.items }
        ensures length { IfOk result (λ v. v.length ≡ n) }
        ensures attributes { IfOk result (λ v. IsArranged attributes.items v.attributes) }
        ensures shaped { IfOk result IsShaped }
        ensures refused { IfErr result (Refuses n attributes.items) }
    {
        if let Some(attribute) = first_of_other_length(n, attributes.as_slice()) {
            return Err(ShapeRefusal::LengthDiffers { attribute });
        }
        see_paths(attributes.as_slice());
        let mut attributes = attributes;
        sort_by_path(&mut attributes);
        if let Some(place) = first_clash(attributes.as_slice()) {
            return Err(clash_at(attributes, place));
        }
        let (paths, columns) = parted(alloc, attributes)?;
        Ok(StructVector {
            count: n,
            paths,
            columns,
        })
    }

    /// The vector of one attribute, as long as its column.
    pub fn of_column(alloc: Global, path: Path, column: Column) -> Result<StructVector, NoMemory>
        requires named { IsBelowRoot path }
        ensures { IfOk result (λ v. v ≡ vector_of (length column.slots) ((path, column) ∷ [])) }
    {
        see_path(&path);
        let count = column.len();
        let mut paths = Vec::with_capacity(alloc, 1)?;
        let mut columns = Vec::with_capacity(alloc, 1)?;
        paths.push(path)?;
        columns.push(column)?;
        Ok(StructVector {
            count,
            paths,
            columns,
        })
    }

    /// The vector of `n` slots with these attributes, which are those of a vector in their order.
    pub fn of_ordered(
        alloc: Global,
        n: u32,
        attributes: Vec<(Path, Column)>,
    ) -> Result<StructVector, NoMemory>
        requires { IsShaped (vector_of n attributes.items) }
        ensures { IfOk result (λ v. v ≡ vector_of n attributes.items) }
    {
        let (paths, columns) = parted(alloc, attributes)?;
        Ok(StructVector {
            count: n,
            paths,
            columns,
        })
    }

    /// How many slots each attribute has.
    pub fn len(&self) -> u32
        ensures len { result ≡ self.now.length }
        ensures shaped { IsShaped self.now }
    {
        self.count
    }

    /// The paths, ascending.
    pub fn paths(&self) -> &[Path]
        ensures paths { result.now ≡ paths_of self.now.attributes }
        ensures each { All IsPath result.now }
        ensures shaped { IsShaped self.now }
    {
        self.paths.as_slice()
    }

    /// The columns, in the order of the paths.
    pub fn columns(&self) -> &[Column]
        ensures columns { result.now ≡ columns_of self.now.attributes }
        ensures shaped { IsShaped self.now }
    {
        self.columns.as_slice()
    }

    /// Another vector with the same attributes, each kept in the same way.
    pub fn copied(&self, alloc: Global) -> Result<StructVector, NoMemory>
        ensures { IfOk result (λ v. v ≡ self.now) }
    {
        Ok(StructVector {
            count: self.count,
            paths: copied_paths(alloc, &self.paths)?,
            columns: copied_columns(alloc, &self.columns)?,
        })
    }

    /// The attribute's column, or `None` where no attribute has that path.
    pub fn column(&self, p: &Path) -> Option<&Column>
        ensures column { option_copied result ≡ lookup (bytes_eq p.now) self.now.attributes }
        ensures shaped { IsShaped self.now }
    {
        self.column_at(p.text())
    }

    /// The column of the attribute whose path has that text, or `None` where there is none.
    pub fn column_at(&self, path: &str) -> Option<&Column>
        ensures column { option_copied result ≡ lookup (bytes_eq path.now) self.now.attributes }
        ensures shaped { IsShaped self.now }
    {
        for (i, p) in self.paths.iter().enumerate() {
            if path == p.text() {
                return Some(&self.columns[i]);
            }
        }
        None
    }
}

/// The same paths again.
fn copied_paths(alloc: Global, paths: &Vec<Path>) -> Result<Vec<Path>, NoMemory>
    ensures { IfOk result (λ copies. copies.items ≡ paths.now.items) }
{
    let mut copies = Vec::with_capacity(alloc, paths.len())?;
    for path in paths {
        copies.push(path.copied(alloc)?)?;
    }
    Ok(copies)
}

/// The same columns again, each kept in the same way.
fn copied_columns(alloc: Global, columns: &Vec<Column>) -> Result<Vec<Column>, NoMemory>
    ensures { IfOk result (λ copies. copies.items ≡ columns.now.items) }
{
    let mut copies = Vec::with_capacity(alloc, columns.len())?;
    for column in columns {
        copies.push(column.copied(alloc)?)?;
    }
    Ok(copies)
}

/// The first attribute whose column has another length, counted from 0.
fn first_of_other_length(n: u32, attributes: &[(Path, Column)]) -> Option<u32>
    requires { length attributes.now < 2 ^ 32 }
    ensures { MatchOption result (HaveLength n attributes.now) (IsFirstOther n attributes.now) }
{
    for (i, attribute) in attributes.iter().enumerate() {
        if attribute.1.len() != n {
            return Some(i as u32);
        }
    }
    None
}

/// Each attribute is named by a path, as each `Path` is one.
fn see_paths(attributes: &[(Path, Column)])
    ensures { All (λ a. IsPath a.0) attributes.now }
{
    for attribute in attributes {
        see_path(&attribute.0);
    }
}

/// A `Path` is a path.
fn see_path(path: &Path)
    ensures { IsPath path.now }
{
    let _text = path.text();
}

/// Sorts attributes by path.
fn sort_by_path(attributes: &mut Vec<(Path, Column)>)
    ensures same { IsPermutation attributes.old.items attributes.new.items }
    ensures sorted { IsSortedByKey (λ a. a.0) (slice_cmp nat_cmp) attributes.new.items }
{
    attributes.sort_unstable_by(|a, b| a.0.cmp(&b.0));
}

/// The first place at which a path and the next one are equal or nested.
fn first_clash(attributes: &[(Path, Column)]) -> Option<usize>
    ensures { MatchOption result (HasNoClash (paths_of attributes.now))
        (IsClashAt (paths_of attributes.now)) }
{
    for i in 1..attributes.len() {
        if attributes[i].0.starts_with(&attributes[i - 1].0) {
            return Some(i - 1);
        }
    }
    None
}

/// The refusal of two neighbours that are equal or nested.
fn clash_at(attributes: Vec<(Path, Column)>, place: usize) -> ShapeRefusal
    requires { place + 1 < length attributes.items }
    ensures { NamesNeighbours (paths_of attributes.items) place result }
{
    let mut attributes = attributes;
    let (path, _) = attributes.remove(place + 1);
    let (above, _) = attributes.remove(place);
    if path == above {
        ShapeRefusal::PathRepeated { path }
    } else {
        ShapeRefusal::PathNested { above, path }
    }
}

/// The paths and the columns of attributes, apart.
fn parted(
    alloc: Global,
    attributes: Vec<(Path, Column)>,
) -> Result<(Vec<Path>, Vec<Column>), NoMemory>
    ensures paths { IfOk result (λ parts. parts.0.items ≡ paths_of attributes.items) }
    ensures columns { IfOk result (λ parts. parts.1.items ≡ columns_of attributes.items) }
{
    let mut paths = Vec::with_capacity(alloc, attributes.len())?;
    let mut columns = Vec::with_capacity(alloc, attributes.len())?;
    for (path, column) in attributes {
        paths.push(path)?;
        columns.push(column)?;
    }
    Ok((paths, columns))
}
