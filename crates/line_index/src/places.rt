//! The paths of files, and where each file's path stands among them.

ghost use Rattle.std.specs.Prelude.{◌≡◌, ◌≤◌, ◌<◌, ◌^◌, ℕ, true, length, IfOk, All};
ghost use Rattle.std.specs.Global.{Vec};
ghost use Rattle.std.specs.List.Sorted.{IsStrictlySortedBy};
ghost use Rattle.coz_types.specs.Labels.{is_written};
ghost use Rattle.dwarf_lines.specs.Registers.{files_view};
ghost use Rattle.line_index.specs.Keys.{ArePlaces, path_cmp};

use crate::entry::{file_positions, sorted_entries};
use crate::paths::{path_positions, sorted_paths};
use dwarf_lines::FileName;
use std::alloc::{AllocError, Global};

/// Written paths, and the position of each file's path among them.
#[derive(Drop)]
pub struct Places {
    /// The paths in order, each once.
    pub paths: Vec<Vec<u8>>,
    /// By file, the position of its path, unless that is empty.
    pub positions: Vec<Option<u32>>,
}

/// The paths of files.
pub fn places_of(alloc: Global, files: &[FileName]) -> Result<Places, AllocError>
    requires { length files.now < 2 ^ 32 }
    ensures in_order { IfOk result (λ places. IsStrictlySortedBy path_cmp places.paths.items) }
    ensures right { IfOk result (λ places.
        All (λ (path : Vec ℕ). is_written path.items ≡ true) places.paths.items) }
    ensures few { IfOk result (λ places. length places.paths.items ≤ length files.now) }
    ensures placed { IfOk result (λ places.
        ArePlaces places.paths.items places.positions.items (files_view files.now)) }
{
    let distinct = sorted_entries(alloc, files)?;
    let paths = sorted_paths(alloc, &distinct)?;
    let ranks = path_positions(alloc, &paths, &distinct)?;
    let positions = file_positions(alloc, &distinct, &ranks, files)?;
    Ok(Places { paths, positions })
}
