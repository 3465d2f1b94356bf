//! The lines of a program by the ranks of their paths and by their numbers.

ghost use Rattle.std.specs.Prelude.{◌≡◌, ◌<◌, ◌+◌, ◌^◌, ℕ, length, IfOk};
ghost use Rattle.line_regions.specs.Lines.{AreHeads, AreNodes, ArePoints, HasRank};

use crate::endings::{is_head, rank_of};
use crate::tree::{Node, Point, tree_of};
use line_remap::Location;
use std::alloc::{AllocError, Global};

/// The rank of the path at an offset, if this is the rank of the path before it.
fn next_rank(locations: &[Location], heads: &[u32], offset: usize, before: usize) -> usize
    requires few { length locations.now < 2 ^ 32 }
    requires heads { AreHeads locations.now heads.now }
    requires within { offset < length locations.now }
    requires before { (k : ℕ) → k + 1 ≡ offset → HasRank locations.now heads.now k before }
    ensures { HasRank locations.now heads.now offset result }
{
    if is_head(locations, offset) {
        rank_of(locations, heads, offset as u32)
    } else {
        before
    }
}

/// A point for each line, in the order of lines. Fails only if it is out of memory.
fn points_of(alloc: Global, locations: &[Location], heads: &[u32]) -> Result<Vec<Point>, AllocError>
    requires few { length locations.now < 2 ^ 32 }
    requires heads { AreHeads locations.now heads.now }
    ensures { IfOk result (λ points. ArePoints locations.now heads.now points.items) }
{
    let mut points = Vec::with_capacity(alloc, locations.len())?;
    let mut rank = 0;
    for offset in 0..locations.len() {
        rank = next_rank(locations, heads, offset, rank);
        points.push(Point {
            rank: rank as u32,
            number: locations[offset].number,
            line: offset as u32,
        })?;
    }
    Ok(points)
}

/// A tree of the lines. Fails only if it is out of memory.
pub fn nodes_of(
    alloc: Global,
    locations: &[Location],
    heads: &[u32],
) -> Result<Vec<Node>, AllocError>
    requires few { length locations.now < 2 ^ 32 }
    requires heads { AreHeads locations.now heads.now }
    ensures { IfOk result (λ nodes. AreNodes locations.now heads.now nodes.items) }
{
    tree_of(alloc, points_of(alloc, locations, heads)?)
}
