//! The paths of lines in the order of their bytes from the last to the first, in which those that
//! end alike stand side by side. They are compared where they lie: no path is copied.

ghost use Rattle.std.specs.Prelude.{◌≡◌, ◌↔◌, ◌<◌, ◌≤◌, ◌-◌, ◌^◌, ℕ, false, length, IfOk};
ghost use Rattle.line_index.specs.Backwards.{IsStretch, backward, backward_cmp, ending, start_cmp};
ghost use Rattle.line_regions.specs.Lines.{AreHeads, HasPathOf, HasRank, path_at, paths_at};

use line_index::{backward_cmp, ending_cmp};
use line_remap::Location;
use std::alloc::{AllocError, Global};
use std::cmp::Ordering;

/// The path at an offset; empty if there is none.
pub fn path_at<'a>(locations: &[Location<'a>], offset: u32) -> &'a [u8]
    ensures { result.now ≡ path_at locations.now offset }
{
    let offset = offset as usize;
    if offset < locations.len() {
        locations[offset].path
    } else {
        &[]
    }
}

/// The order of the paths at two offsets, by their bytes from the last to the first.
fn paths_cmp(locations: &[Location], one: u32, other: u32) -> Ordering
    ensures { result ≡ backward_cmp (paths_at locations.now) one other }
{
    backward_cmp(path_at(locations, one), path_at(locations, other))
}

/// Whether no earlier neighbour has the path at this offset.
pub fn is_head(locations: &[Location], offset: usize) -> bool
    requires { offset < length locations.now }
    ensures { (result ≡ false)
        ↔ ((0 < offset) × (path_at locations.now (offset - 1) ≡ path_at locations.now offset)) }
{
    if offset == 0 {
        return true;
    }
    locations[offset - 1].path != locations[offset].path
}

/// The offset of the first location of each path, if locations of one path stand side by side.
fn first_locations(alloc: Global, locations: &[Location]) -> Result<Vec<u32>, AllocError>
    requires { length locations.now < 2 ^ 32 }
    ensures few { IfOk result (λ list. length list.items ≤ length locations.now) }
    ensures each { IfOk result (λ list. (k : ℕ) → k < length locations.now
        → HasPathOf locations.now list.items k) }
{
    let mut list = Vec::new(alloc);
    for offset in 0..locations.len() {
        if is_head(locations, offset) {
            list.push(offset as u32)?;
        }
    }
    Ok(list)
}

/// The offset of one location of each path, in the order of the bytes from the last to the first.
pub fn heads(alloc: Global, locations: &[Location]) -> Result<Vec<u32>, AllocError>
    requires { length locations.now < 2 ^ 32 }
    ensures { IfOk result (λ list. AreHeads locations.now list.items) }
{
    let mut list = first_locations(alloc, locations)?;
    list.sort_by(|one, other| paths_cmp(locations, *one, *other))?;
    Ok(list)
}

/// The rank of the path at an offset.
pub fn rank_of(locations: &[Location], heads: &[u32], offset: u32) -> usize
    requires heads { AreHeads locations.now heads.now }
    requires within { offset < length locations.now }
    ensures { HasRank locations.now heads.now offset result }
{
    heads.partition_point(|one| paths_cmp(locations, *one, offset).is_lt())
}

/// Whether in that order the path at an offset is before those that end with a slash and the
/// text, is one of them, or is after them.
fn offset_cmp(locations: &[Location], offset: u32, text: &[u8]) -> Ordering
    ensures { result ≡ start_cmp (ending text.now) (backward (paths_at locations.now) offset) }
{
    ending_cmp(path_at(locations, offset), text)
}

/// A range of paths in that order.
#[derive(Clone, Copy)]
pub struct Stretch {
    /// The rank of the first of them.
    pub start: usize,
    /// The rank after the last of them.
    pub end: usize,
}

/// The paths that end with a slash and the text.
pub fn stretch_of(locations: &[Location], heads: &[u32], text: &[u8]) -> Stretch
    requires { AreHeads locations.now heads.now }
    ensures stretch { IsStretch (paths_at locations.now) heads.now text.now result.start result.end }
    ensures within { result.end ≤ length heads.now }
{
    let start = heads.partition_point(|one| offset_cmp(locations, *one, text).is_lt());
    let end = heads.partition_point(|one| offset_cmp(locations, *one, text).is_le());
    Stretch { start, end }
}
