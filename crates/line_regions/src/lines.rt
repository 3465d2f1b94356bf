//! The lines of a program by path and number, and the regions among them.

ghost use Rattle.std.specs.Prelude.{◌≡◌, ◌≤◌, ◌<◌, ◌^◌, length, option_map, AllPairs, All, IfOk, IfSome};
ghost use Rattle.line_index.specs.Changes.{least};
ghost use Rattle.line_index.specs.Lines.{line_cmp};
ghost use Rattle.line_remap.specs.Locations.{line_of_location};
ghost use Rattle.line_regions.specs.Lines.{AreHeads, AreNodes, IsBefore, IsBelow, IsFirst, IsIn, IsSpan, IsSpelled, line_in, lines_at};
ghost use Rattle.line_remap.specs.Marks.{spelled_lines};
ghost use Rattle.line_regions.specs.Regions.{first_of, region_found, region_of};

use crate::endings::{heads, stretch_of};
use crate::points::nodes_of;
use crate::tree::{Interval, Node, Rectangle, first_within};
use coz_types::LineId;
use line_index::LineIndex;
use line_remap::{Location, location_of};
use std::alloc::{AllocError, Global};
use std::cmp::Ordering;
use std::marker::Model;

/// Lines of one path: those with the numbers from one up to another.
#[derive(Clone, Copy)]
pub struct Region<'a> {
    /// The path.
    pub path: &'a [u8],
    /// The least of their numbers.
    pub first: u32,
    /// The greatest of their numbers.
    pub last: u32,
}

/// The lines of a program in order, by path and number. Contracts see the list of them.
#[derive(Drop)]
pub struct Lines<'a> {
    pub(crate) locations: Vec<Location<'a>>,
    // The offset of one location of each path, by the bytes from the last to the first.
    heads: Vec<u32>,
    // A tree of the lines, by the ranks of their paths in that order and by their numbers.
    nodes: Vec<Node>,
}

impl<'a> Model for Lines<'a> {
    ghost use Rattle.std.specs.Prelude.{List};
    ghost use Rattle.line_index.specs.Lines.{Line};
    ghost use Rattle.line_regions.specs.Lines.{AreLines, lines_at};

    ghost Value = { List Line };

    ghost view = { λ lines. lines_at lines.locations.items };

    ghost invariant = { λ lines. AreLines lines.locations.items lines.heads.items lines.nodes.items };
}

/// The lines of a program in order, as their labels spell them.
fn locations_of<'a>(alloc: Global, index: &'a LineIndex) -> Result<Vec<Location<'a>>, AllocError>
    ensures lines { IfOk result (λ locations. lines_at locations.items ≡ spelled_lines index.now) }
    ensures rising { IfOk result (λ locations. AllPairs IsBefore (lines_at locations.items)) }
    ensures right { IfOk result (λ locations. All IsSpelled locations.items) }
    ensures few { IfOk result (λ locations. length locations.items < 2 ^ 32) }
{
    let mut locations = Vec::new(alloc);
    for line in 0..index.count() {
        locations.push(location_of(index.label(LineId(line)).bytes()))?;
    }
    Ok(locations)
}

/// The order of a line and the line of a path and a number.
fn line_cmp(location: &Location, path: &[u8], number: u32) -> Ordering
    ensures { result
        ≡ line_cmp (line_of_location location.now) (record { path = path.now; number = number }) }
{
    location.path.cmp(path).then(location.number.cmp(&number))
}

/// Some lines that stand side by side.
#[derive(Clone, Copy)]
pub struct Span {
    /// The offset of the first of them.
    pub start: usize,
    /// The offset after the last of them.
    pub end: usize,
}

/// The lines of a region.
pub fn span_of(locations: &[Location], region: &Region) -> Span
    requires { AllPairs IsBefore (lines_at locations.now) }
    ensures span { IsSpan (lines_at locations.now) (region_of region.now) result.start result.end }
    ensures within { result.end ≤ length locations.now }
{
    let start = locations.partition_point(|location| line_cmp(
        location,
        region.path,
        region.first,
    ).is_lt());
    let end = locations.partition_point(|location| line_cmp(
        location,
        region.path,
        region.last,
    ).is_le());
    Span { start, end }
}

/// The offset of the first line of a region, if it has one.
fn first_in(locations: &[Location], region: &Region) -> Option<usize>
    requires { AllPairs IsBefore (lines_at locations.now) }
    ensures { IsFirst (length locations.now) (IsIn (lines_at locations.now) (region_of region.now)) result }
{
    let span = span_of(locations, region);
    if span.start < span.end {
        Some(span.start)
    } else {
        None
    }
}

/// The lesser of two offsets.
pub fn least(one: Option<usize>, other: Option<usize>) -> Option<usize>
    ensures { result ≡ least one other }
{
    match (one, other) {
        (None, other) => other,
        (Some(one), None) => Some(one),
        (Some(one), Some(other)) => Some(if one <= other { one } else { other }),
    }
}

/// The offset of the first line of the region's numbers with a path that ends with a slash and
/// the region's, if there is one.
fn first_below(
    locations: &[Location],
    heads: &[u32],
    nodes: &[Node],
    region: &Region,
) -> Option<usize>
    requires few { length locations.now < 2 ^ 32 }
    requires heads { AreHeads locations.now heads.now }
    requires nodes { AreNodes locations.now heads.now nodes.now }
    ensures { IsFirst (length locations.now) (IsBelow (lines_at locations.now) (region_of region.now))
        result }
{
    let stretch = stretch_of(locations, heads, region.path);
    if stretch.start >= stretch.end {
        return None;
    }
    let wanted = Rectangle {
        ranks: Interval {
            least: stretch.start as u32,
            greatest: (stretch.end - 1) as u32,
        },
        numbers: Interval {
            least: region.first,
            greatest: region.last,
        },
    };
    first_within(nodes, &wanted)
}

/// The offset of the line by which a region is found, if there is one.
fn first_of(locations: &[Location], heads: &[u32], nodes: &[Node], region: &Region) -> Option<usize>
    requires few { length locations.now < 2 ^ 32 }
    requires rising { AllPairs IsBefore (lines_at locations.now) }
    requires heads { AreHeads locations.now heads.now }
    requires nodes { AreNodes locations.now heads.now nodes.now }
    ensures line { option_map (line_in (lines_at locations.now)) result
        ≡ first_of (lines_at locations.now) (region_of region.now) }
    ensures within { IfSome result (λ offset. offset < length locations.now) }
{
    match first_in(locations, region) {
        Some(offset) => Some(offset),
        None => first_below(locations, heads, nodes, region),
    }
}

impl<'a> Lines<'a> {
    /// The lines of a program, as their labels spell them.
    pub fn new(alloc: Global, index: &'a LineIndex) -> Result<Lines<'a>, AllocError>
        ensures { IfOk result (λ lines. lines ≡ spelled_lines index.now) }
    {
        let locations = locations_of(alloc, index)?;
        let heads = heads(alloc, &locations)?;
        let nodes = nodes_of(alloc, &locations, &heads)?;
        Ok(Lines {
            locations,
            heads,
            nodes,
        })
    }

    /// The region with the whole path that its path names, if it has a line: the lines of its
    /// numbers with its path, or else those with the first path that has one and ends with a slash
    /// and its path.
    pub fn found(&self, region: &Region) -> Option<Region<'a>>
        ensures region { option_map region_of result
            ≡ region_found self.now (region_of region.now) }
        ensures first { IfSome result (λ found. found.first ≡ region.now.first) }
    {
        let offset = first_of(&self.locations, &self.heads, &self.nodes, region)?;
        Some(Region {
            path: self.locations[offset].path,
            first: region.first,
            last: region.last,
        })
    }
}
