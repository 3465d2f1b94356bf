//! Lines by name.

ghost use Rattle.std.specs.Prelude.{◌≡◌, ◌<◌, ◌^◌, List, length, map, position, All};
ghost use Rattle.std.specs.List.Sorted.{IsStrictlySortedBy};
ghost use Rattle.line_index.specs.declared.lines.Key.{Key};
ghost use Rattle.line_index.specs.Lines.{is_line_named, is_line_below, position_named};
ghost use Rattle.line_index.specs.Keys.{HasPath, is_key, key_cmp, path_cmp, texts, with_path};
ghost use Rattle.line_index.specs.Index.{line_at};
ghost use Rattle.line_index.specs.Endings.{HoldsLines, IsSearchable};

use crate::backwards::stretch_of;
use crate::blocks::first_between;
use crate::endings::{Endings, start_of};
use crate::lines::Key;

/// The line of the path at this position, and of this number.
fn line_of_path(keys: &[Key], path: u32, number: u32) -> Option<u32>
    requires in_order { IsStrictlySortedBy key_cmp keys.now }
    requires few { length keys.now < 2 ^ 32 }
    ensures { result ≡ position (is_key (with_path number path)) keys.now }
{
    match keys.binary_search(&Key { path, number }) {
        Ok(at) => Some(at as u32),
        Err(_) => None,
    }
}

/// The line of this path and number.
fn line_of_text(paths: &[Vec<u8>], keys: &[Key], path: &[u8], number: u32) -> Option<u32>
    requires paths_in_order { IsStrictlySortedBy path_cmp paths.now }
    requires few_paths { length paths.now < 2 ^ 32 }
    requires in_order { IsStrictlySortedBy key_cmp keys.now }
    requires have_paths { All (HasPath (texts paths.now)) keys.now }
    requires few { length keys.now < 2 ^ 32 }
    ensures { result
        ≡ position (is_line_named path.now number) (map (line_at (texts paths.now)) keys.now) }
{
    match paths.binary_search_by(|other| other.as_slice().cmp(path)) {
        Ok(at) => line_of_path(keys, at as u32, number),
        Err(_) => None,
    }
}

/// The first line of this number whose path ends with a slash and the text.
fn line_below(paths: &[Vec<u8>], endings: &Endings, path: &[u8], number: u32) -> Option<u32>
    requires { IsSearchable (texts paths.now) endings.now }
    ensures { (keys : List Key) → HoldsLines keys endings.now → result
        ≡ position (is_line_below path.now number) (map (line_at (texts paths.now)) keys) }
{
    let stretch = stretch_of(paths, &endings.backwards, path);
    let start = start_of(&endings.lines, number, stretch.start);
    let end = start_of(&endings.lines, number, stretch.end);
    first_between(&endings.lines, &endings.firsts, start, end)
}

/// The line of this path and number, else the first whose path ends with a slash and the text.
/// Each is found by searches in lists that are in order.
pub fn find(
    paths: &[Vec<u8>],
    endings: &Endings,
    keys: &[Key],
    path: &[u8],
    number: u32,
) -> Option<u32>
    requires paths_in_order { IsStrictlySortedBy path_cmp paths.now }
    requires few_paths { length paths.now < 2 ^ 32 }
    requires searchable { IsSearchable (texts paths.now) endings.now }
    requires lines { HoldsLines keys.now endings.now }
    requires in_order { IsStrictlySortedBy key_cmp keys.now }
    requires have_paths { All (HasPath (texts paths.now)) keys.now }
    requires few { length keys.now < 2 ^ 32 }
    ensures { result ≡ position_named path.now number (map (line_at (texts paths.now)) keys.now) }
{
    match line_of_text(paths, keys, path, number) {
        Some(line) => Some(line),
        None => line_below(paths, endings, path, number),
    }
}
