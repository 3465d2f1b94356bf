//! The written paths in the order of their bytes from the last to the first, in which those that
//! end alike stand side by side. They are compared where they lie: no path is copied.

ghost use Rattle.std.specs.Prelude.{◌≡◌, ◌<◌, ◌^◌, ℕ, [], length, get_or, IfOk, All, Contains};
ghost use Rattle.line_index.specs.Keys.{texts};
ghost use Rattle.line_index.specs.Backwards.{AreBackwards, IsStretch, backward, backward_cmp, ending, start_cmp};

use crate::suffixes::{backward_cmp, ending_cmp};
use std::alloc::{AllocError, Global};
use std::cmp::Ordering;

/// The path at a position; empty if there is none.
pub fn path_at(paths: &[Vec<u8>], position: u32) -> &[u8]
    ensures { result.now ≡ get_or (texts paths.now) position [] }
{
    let at = position as usize;
    if at < paths.len() { &paths[at] } else { &[] }
}

/// The order of the paths at two positions, by their bytes from the last to the first.
fn paths_cmp(paths: &[Vec<u8>], one: u32, other: u32) -> Ordering
    ensures { result ≡ backward_cmp (texts paths.now) one other }
{
    backward_cmp(path_at(paths, one), path_at(paths, other))
}

fn all_positions(alloc: Global, count: usize) -> Result<Vec<u32>, AllocError>
    requires { count < 2 ^ 32 }
    ensures as_many { IfOk result (λ list. length list.items ≡ count) }
    ensures own { IfOk result (λ list. All (λ position. position < count) list.items) }
    ensures each { IfOk result (λ list. (k : ℕ) → k < count → Contains list.items k) }
{
    let mut list = Vec::with_capacity(alloc, count)?;
    for position in 0..count {
        list.push(position as u32)?;
    }
    Ok(list)
}

/// The positions of the paths in the order of their bytes from the last to the first.
/// Fails only if it is out of memory.
pub fn backwards(alloc: Global, paths: &[Vec<u8>]) -> Result<Vec<u32>, AllocError>
    requires { length paths.now < 2 ^ 32 }
    ensures { IfOk result (λ list. AreBackwards (texts paths.now) list.items) }
{
    let mut list = all_positions(alloc, paths.len())?;
    list.sort_by(|one, other| paths_cmp(paths, *one, *other))?;
    Ok(list)
}

/// Whether in that order the path at a position is before the paths that end with a slash and the
/// text, is one of them (`Equal`), or is after them.
fn position_cmp(paths: &[Vec<u8>], position: u32, text: &[u8]) -> Ordering
    ensures { result ≡ start_cmp (ending text.now) (backward (texts paths.now) position) }
{
    ending_cmp(path_at(paths, position), text)
}

/// A range of paths in that order.
#[derive(Clone, Copy)]
pub struct Stretch {
    /// The rank of the first of them.
    pub start: usize,
    /// The rank after the last of them.
    pub end: usize,
}

/// The paths that end with a slash and the text.
pub fn stretch_of(paths: &[Vec<u8>], backwards: &[u32], text: &[u8]) -> Stretch
    requires { AreBackwards (texts paths.now) backwards.now }
    ensures { IsStretch (texts paths.now) backwards.now text.now result.start result.end }
{
    let start = backwards.partition_point(|one| position_cmp(paths, *one, text).is_lt());
    let end = backwards.partition_point(|one| position_cmp(paths, *one, text).is_le());
    Stretch { start, end }
}
