//! The written paths of files.

ghost use Rattle.std.specs.Prelude.{◌≡◌, ◌+◌, ◌≤◌, ◌<◌, ◌^◌, ℕ, true, length, map, option_map, Some, IfOk, All, Contains};
ghost use Rattle.std.specs.Global.{Vec};
ghost use Rattle.std.specs.List.Sorted.{IsStrictlySortedBy};
ghost use Rattle.coz_types.specs.Labels.{is_written};
ghost use Rattle.dwarf_lines.specs.Registers.{File};
ghost use Rattle.line_index.specs.Lines.{path, is_rooted, entry_path};
ghost use Rattle.line_index.specs.Keys.{ArePlaces, entries_view, entry_view, texts, path_cmp, path_place};

use crate::entry::Entry;
use crate::written::write_escaped;
use std::alloc::{AllocError, Global};

/// Whether a name begins at the root.
fn is_rooted(name: &[u8]) -> bool
    ensures { result ≡ is_rooted name.now }
{
    match name.split_first() {
        Some((first, _)) => *first == b'/',
        None => false,
    }
}

/// The name of a file, and in front of it its directory and a slash, if it has one and doesn't
/// begin at the root itself; as it is written in labels.
fn written_path(alloc: Global, entry: &Entry) -> Result<Vec<u8>, AllocError>
    ensures path { IfOk result (λ text. text.items ≡ path (entry_view entry.now)) }
    ensures right { IfOk result (λ text. is_written text.items ≡ true) }
{
    let mut text = Vec::new(alloc);
    if !entry.directory.is_empty() && !is_rooted(entry.name) {
        write_escaped(&mut text, entry.directory)?;
        text.push(b'/')?;
    }
    write_escaped(&mut text, entry.name)?;
    Ok(text)
}

fn written_paths(alloc: Global, entries: &[Entry]) -> Result<Vec<Vec<u8>>, AllocError>
    ensures paths { IfOk result (λ paths. texts paths.items ≡ map path (entries_view entries.now)) }
    ensures right { IfOk result (λ paths.
        All (λ (path : Vec ℕ). is_written path.items ≡ true) paths.items) }
{
    let mut paths = Vec::with_capacity(alloc, entries.len())?;
    for entry in entries {
        paths.push(written_path(alloc, entry)?)?;
    }
    Ok(paths)
}

/// The written paths in order, each once.
pub fn sorted_paths(alloc: Global, entries: &[Entry]) -> Result<Vec<Vec<u8>>, AllocError>
    ensures in_order { IfOk result (λ paths. IsStrictlySortedBy path_cmp paths.items) }
    ensures each { IfOk result (λ paths.
        All (λ (file : File). Contains (texts paths.items) (path file))
        (entries_view entries.now)) }
    ensures right { IfOk result (λ paths.
        All (λ (path : Vec ℕ). is_written path.items ≡ true) paths.items) }
    ensures few { IfOk result (λ paths. length paths.items ≤ length entries.now) }
{
    let mut paths = written_paths(alloc, entries)?;
    paths.sort()?;
    paths.dedup();
    Ok(paths)
}

/// The position of the file's path, unless that is empty.
fn path_position(alloc: Global, paths: &[Vec<u8>], entry: &Entry) -> Result<Option<u32>, AllocError>
    requires in_order { IsStrictlySortedBy path_cmp paths.now }
    requires one { Contains (texts paths.now) (path (entry_view entry.now)) }
    requires few { length paths.now < 2 ^ 32 }
    ensures { IfOk result (λ position.
        path_place paths.now position ≡ option_map Some (entry_path (entry_view entry.now))) }
{
    let written = written_path(alloc, entry)?;
    if written.as_slice().is_empty() {
        return Ok(None);
    }
    match paths.binary_search(&written) {
        Ok(at) => Ok(Some(at as u32)),
        Err(_) => Ok(None),
    }
}

/// The position of each file's path.
pub fn path_positions(
    alloc: Global,
    paths: &[Vec<u8>],
    entries: &[Entry],
) -> Result<Vec<Option<u32>>, AllocError>
    requires in_order { IsStrictlySortedBy path_cmp paths.now }
    requires each { All (λ (file : File). Contains (texts paths.now) (path file))
        (entries_view entries.now) }
    requires few { length paths.now < 2 ^ 32 }
    ensures { IfOk result (λ positions.
        ArePlaces paths.now positions.items (entries_view entries.now)) }
{
    let mut positions = Vec::with_capacity(alloc, entries.len())?;
    for entry in entries {
        positions.push(path_position(alloc, paths, entry)?)?;
    }
    Ok(positions)
}
