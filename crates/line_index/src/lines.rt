//! The lines that a program has, in order, and from which address on it has which.

ghost use Rattle.std.specs.Prelude.{◌≡◌, ◌+◌, ◌≤◌, ◌<◌, ◌^◌, ◌↔◌, ℕ, [], ◌∷◌, ◌++◌, length, map, option_map, slice_get, Some, IfOk, IfSome, OnOk, All, Contains};
ghost use Rattle.std.specs.List.{cons_option};
ghost use Rattle.std.specs.Option.{ForSome};
ghost use Rattle.std.specs.List.Sorted.{IsStrictlySortedBy};
ghost use Rattle.line_index.specs.declared.changes.Change.{Change};
ghost use Rattle.line_index.specs.declared.lines.Key.{Key};
ghost use Rattle.line_index.specs.Changes.{IsRising, place_of, changes_of};
ghost use Rattle.line_index.specs.Keys.{IsBelow, IsNumbered, key_cmp, row_key, key_at, change_keys, key_change, line_change};

use crate::changes::{Change, LineChange};
use coz_types::LineId;
use dwarf_lines::Row;
use std::alloc::{AllocError, Global};

/// A line by the position of its path in the order of paths, and its number.
#[derive(Clone, Copy, PartialEq, Eq, PartialOrd, Ord)]
pub struct Key {
    /// The position of its path.
    pub path: u32,
    /// The number of the line in its file.
    pub number: u32,
}

/// The lines of a program in order, and where each of them stands.
#[derive(Drop)]
pub struct Lines {
    /// The lines in order, each once.
    pub keys: Vec<Key>,
    /// Which line stands from which address on.
    pub changes: Vec<LineChange>,
}

/// The line of a row, if these are the positions of the files' paths.
fn row_key(positions: &[Option<u32>], row: &Row) -> Option<Key>
    ensures key { result ≡ row_key positions.now row.now }
    ensures numbered { IfSome result IsNumbered }
{
    if row.line == 0 {
        return None;
    }
    let file = row.file?;
    let position = positions.get(file as usize)?;
    let path = (*position)?;
    Some(Key {
        path,
        number: row.line,
    })
}

/// The line of the row at a position.
fn key_at(rows: &[Row], positions: &[Option<u32>], number: Option<u32>) -> Option<Key>
    ensures key { result ≡ key_at rows.now positions.now number }
    ensures numbered { IfSome result IsNumbered }
{
    let number = number?;
    let row = rows.get(number as usize)?;
    row_key(positions, row)
}

/// Appends a line, if there is one.
fn push_some(keys: &mut Vec<Key>, key: Option<Key>) -> Result<(), AllocError>
    ensures { OnOk result (keys.new.items ≡ keys.old.items ++ cons_option key []) }
{
    match key {
        Some(key) => {
            keys.push(key)?;
            Ok(())
        }
        None => Ok(()),
    }
}

/// The lines of the rows that changes name.
fn change_keys(
    alloc: Global,
    rows: &[Row],
    positions: &[Option<u32>],
    changes: &[Change],
) -> Result<Vec<Key>, AllocError>
    ensures keys { IfOk result (λ keys.
        keys.items ≡ change_keys rows.now positions.now changes.now) }
    ensures numbered { IfOk result (λ keys. All IsNumbered keys.items) }
    ensures few { IfOk result (λ keys. length keys.items ≤ length changes.now) }
{
    let mut keys = Vec::new(alloc);
    for change in changes {
        push_some(&mut keys, key_at(rows, positions, change.position))?;
    }
    Ok(keys)
}

/// The lines in order, each once.
fn sorted_keys(
    alloc: Global,
    rows: &[Row],
    positions: &[Option<u32>],
    changes: &[Change],
) -> Result<Vec<Key>, AllocError>
    ensures in_order { IfOk result (λ keys. IsStrictlySortedBy key_cmp keys.items) }
    ensures each { IfOk result (λ keys. (key : Key)
        → Contains keys.items key ↔ Contains (change_keys rows.now positions.now changes.now) key) }
    ensures numbered { IfOk result (λ keys. All IsNumbered keys.items) }
    ensures few { IfOk result (λ keys. length keys.items ≤ length changes.now) }
{
    let mut keys = change_keys(alloc, rows, positions, changes)?;
    keys.sort()?;
    keys.dedup();
    Ok(keys)
}

/// The line of a key, by its position among them.
fn key_line(keys: &[Key], key: Option<Key>) -> Option<LineId>
    requires in_order { IsStrictlySortedBy key_cmp keys.now }
    requires one { ForSome key (Contains keys.now) }
    requires few { length keys.now < 2 ^ 32 }
    ensures { option_map (slice_get keys.now) (place_of result) ≡ option_map Some key }
{
    match key {
        Some(key) => match keys.binary_search(&key) {
            Ok(at) => Some(LineId(at as u32)),
            Err(_) => None,
        },
        None => None,
    }
}

/// The changes with lines instead of rows.
fn line_changes(
    alloc: Global,
    rows: &[Row],
    positions: &[Option<u32>],
    keys: &[Key],
    changes: &[Change],
) -> Result<Vec<LineChange>, AllocError>
    requires in_order { IsStrictlySortedBy key_cmp keys.now }
    requires each { (key : Key) → Contains (change_keys rows.now positions.now changes.now) key
        → Contains keys.now key }
    requires few { length keys.now < 2 ^ 32 }
    ensures { IfOk result (λ lines. map (line_change keys.now) (changes_of lines.items)
        ≡ map (key_change rows.now positions.now) changes.now) }
{
    let mut lines = Vec::with_capacity(alloc, changes.len())?;
    for change in changes {
        let line = key_line(keys, key_at(rows, positions, change.position));
        lines.push(LineChange {
            address: change.address,
            line,
        })?;
    }
    Ok(lines)
}

/// The lines of the rows that changes name, and the changes with them instead of the rows.
pub fn lines_of(
    alloc: Global,
    rows: &[Row],
    positions: &[Option<u32>],
    covering: &[Change],
) -> Result<Lines, AllocError>
    requires { length covering.now < 2 ^ 32 }
    ensures in_order { IfOk result (λ lines. IsStrictlySortedBy key_cmp lines.keys.items) }
    ensures each { IfOk result (λ lines. (key : Key) → Contains lines.keys.items key
        ↔ Contains (change_keys rows.now positions.now covering.now) key) }
    ensures numbered { IfOk result (λ lines. All IsNumbered lines.keys.items) }
    ensures few { IfOk result (λ lines. length lines.keys.items ≤ length covering.now) }
    ensures changes { IfOk result (λ lines.
        map (line_change lines.keys.items) (changes_of lines.changes.items)
        ≡ map (key_change rows.now positions.now) covering.now) }
    ensures below { IfOk result (λ lines.
        All (IsBelow (length lines.keys.items)) (changes_of lines.changes.items)) }
{
    let keys = sorted_keys(alloc, rows, positions, covering)?;
    let changes = line_changes(alloc, rows, positions, &keys, covering)?;
    Ok(Lines { keys, changes })
}
