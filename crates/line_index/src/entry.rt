//! The file entries of a table, each once, so that equal ones have one path.

ghost use Rattle.std.specs.Prelude.{◌≡◌, ◌≤◌, ℕ, List, Some, option_map, length, IfOk, All, Contains};
ghost use Rattle.std.specs.List.Sorted.{IsStrictlySortedBy};
ghost use Rattle.std.specs.Global.{Vec};
ghost use Rattle.dwarf_lines.specs.Registers.{file_view, files_view};
ghost use Rattle.line_index.specs.Lines.{entry_path};
ghost use Rattle.line_index.specs.Keys.{ArePlaces, entry_cmp, entries_view, path_place};

use crate::capacity::path_buffer;
use dwarf_lines::FileName;
use std::alloc::{AllocError, Global};

/// A file's name and its directory. They are compared in this order, since long directories are
/// shared by many files.
#[derive(Clone, Copy, PartialEq, Eq, PartialOrd, Ord, Drop)]
pub struct Entry<'a> {
    /// The file's name.
    pub name: &'a [u8],
    /// The path of its directory.
    pub directory: &'a [u8],
}

fn entry_of<'a>(file: &FileName<'a>) -> Entry<'a>
    ensures { result ≡ record { name = file.now.name; directory = file.now.directory } }
{
    Entry {
        name: file.name,
        directory: file.directory,
    }
}

fn all_entries<'a>(alloc: Global, files: &[FileName<'a>]) -> Result<Vec<Entry<'a>>, AllocError>
    ensures { IfOk result (λ entries. entries_view entries.items ≡ files_view files.now) }
{
    let mut entries = Vec::with_capacity(alloc, files.len())?;
    for file in files {
        entries.push(entry_of(file))?;
    }
    Ok(entries)
}

/// The files in order, each once. Out of memory also if memory for all their paths is refused.
pub fn sorted_entries<'a>(
    alloc: Global,
    files: &[FileName<'a>],
) -> Result<Vec<Entry<'a>>, AllocError>
    ensures in_order { IfOk result (λ entries. IsStrictlySortedBy entry_cmp entries.items) }
    ensures each { IfOk result (λ entries.
        All (Contains (entries_view entries.items)) (files_view files.now)) }
    ensures few { IfOk result (λ entries. length entries.items ≤ length files.now) }
{
    path_buffer(alloc, files)?;
    let mut entries = all_entries(alloc, files)?;
    entries.sort()?;
    entries.dedup();
    Ok(entries)
}

/// The position at the index of the file's entry.
fn position_of(entries: &[Entry], positions: &[Option<u32>], file: &FileName) -> Option<u32>
    requires in_order { IsStrictlySortedBy entry_cmp entries.now }
    requires one { Contains (entries_view entries.now) (file_view file.now) }
    requires as_many { length positions.now ≡ length entries.now }
    ensures { (paths : List (Vec ℕ)) → ArePlaces paths positions.now (entries_view entries.now)
        → path_place paths result ≡ option_map Some (entry_path (file_view file.now)) }
{
    match entries.binary_search(&entry_of(file)) {
        Ok(at) => positions[at],
        Err(_) => None,
    }
}

/// The position of each file's path, by those of the entries.
pub fn file_positions(
    alloc: Global,
    entries: &[Entry],
    positions: &[Option<u32>],
    files: &[FileName],
) -> Result<Vec<Option<u32>>, AllocError>
    requires in_order { IsStrictlySortedBy entry_cmp entries.now }
    requires each { All (Contains (entries_view entries.now)) (files_view files.now) }
    requires as_many { length positions.now ≡ length entries.now }
    ensures { IfOk result (λ placed.
        (paths : List (Vec ℕ)) → ArePlaces paths positions.now (entries_view entries.now)
        → ArePlaces paths placed.items (files_view files.now)) }
{
    let mut placed = Vec::with_capacity(alloc, files.len())?;
    for file in files {
        placed.push(position_of(entries, positions, file))?;
    }
    Ok(placed)
}
