//! A k-d tree (J. L. Bentley, "Multidimensional binary search trees used for associative
//! searching", 1975) of the lines of a program, each by the rank of its path and by its number.
//! That a search visits few nodes is counted and not proved: docs/DECISIONS.md.

ghost use Rattle.std.specs.Prelude.{◌≡◌, ◌↔◌, ◌≤◌, ◌<◌, ◌+◌, ◌^◌, ◌∷◌, [], length, if◌then◌else◌, nat_le, IfOk, IsTrue};
ghost use Rattle.line_regions.specs.Lines.{IsFirst};
ghost use Rattle.line_regions.specs.Tree.{AddsPoints, Covers, IsCoverOf, IsHeld, IsIn, IsPointIn, IsTree, IsWithin, Meets, widened};

use crate::lines::least;
use std::alloc::{AllocError, Global};

/// The numbers from the least to the greatest, both of them in it.
#[derive(Clone, Copy)]
pub struct Interval {
    /// The least number.
    pub least: u32,
    /// The greatest number.
    pub greatest: u32,
}

/// An interval of ranks of paths, and one of numbers of lines.
#[derive(Clone, Copy)]
pub struct Rectangle {
    /// The ranks.
    pub ranks: Interval,
    /// The numbers.
    pub numbers: Interval,
}

/// A line by the rank of its path and by its number.
#[derive(Clone, Copy)]
pub struct Point {
    /// The rank of the line's path.
    pub rank: u32,
    /// The number of the line.
    pub number: u32,
    /// The index of the line in the order of lines.
    pub line: u32,
}

/// The bounding box of some points, and the first of their lines.
#[derive(Clone, Copy)]
pub struct Cover {
    /// The least rectangle that all points are in.
    pub bounds: Rectangle,
    /// The index of the first of their lines.
    pub first: u32,
}

/// A node of the tree. The nodes are in postorder: those of a subtree are side by side, and its
/// root is the last of them.
#[derive(Clone, Copy)]
pub struct Node {
    /// The point of the node.
    pub point: Point,
    /// The cover of the points of the subtree whose root it is.
    pub cover: Cover,
    /// The index of the first node of that subtree.
    pub start: u32,
}

impl Interval {
    /// Whether a number is in it.
    fn has(&self, number: u32) -> bool
        ensures { IsTrue result ↔ IsIn number self.now }
    {
        self.least <= number && number <= self.greatest
    }

    /// Whether all its numbers are in the other.
    fn is_within(&self, other: &Interval) -> bool
        ensures { IsTrue result ↔ IsWithin self.now other.now }
    {
        other.least <= self.least && self.greatest <= other.greatest
    }

    /// Whether some of its numbers are in the other.
    fn meets(&self, other: &Interval) -> bool
        ensures { IsTrue result ↔ Meets self.now other.now }
    {
        self.least <= other.greatest && other.least <= self.greatest
    }

    /// The least interval that has its numbers and one more.
    fn widened(&self, number: u32) -> Interval
        ensures { result ≡ widened self.now number }
    {
        Interval {
            least: if self.least <= number {
                self.least
            } else {
                number
            },
            greatest: if number <= self.greatest {
                self.greatest
            } else {
                number
            },
        }
    }
}

impl Rectangle {
    /// Whether a point is in it.
    fn has(&self, point: &Point) -> bool
        ensures { IsTrue result ↔ IsPointIn point.now self.now }
    {
        self.ranks.has(point.rank) && self.numbers.has(point.number)
    }

    /// Whether all its points are in the other.
    fn is_within(&self, other: &Rectangle) -> bool
        ensures { IsTrue result
            ↔ (IsWithin self.now.ranks other.now.ranks × IsWithin self.now.numbers other.now.numbers) }
    {
        self.ranks.is_within(&other.ranks) && self.numbers.is_within(&other.numbers)
    }

    /// Whether some of its points are in the other.
    fn meets(&self, other: &Rectangle) -> bool
        ensures { IsTrue result
            ↔ (Meets self.now.ranks other.now.ranks × Meets self.now.numbers other.now.numbers) }
    {
        self.ranks.meets(&other.ranks) && self.numbers.meets(&other.numbers)
    }
}

impl Point {
    /// What points are ordered by: the number and the rank, or the rank and the number.
    fn key(&self, by_number: bool) -> (u32, u32) {
        if by_number {
            (self.number, self.rank)
        } else {
            (self.rank, self.number)
        }
    }

    /// The cover of this point alone.
    fn cover(&self) -> Cover
        ensures { IsCoverOf (self.now ∷ []) result }
    {
        Cover {
            bounds: Rectangle {
                ranks: Interval {
                    least: self.rank,
                    greatest: self.rank,
                },
                numbers: Interval {
                    least: self.number,
                    greatest: self.number,
                },
            },
            first: self.line,
        }
    }
}

/// The cover of the points of a cover and one more.
fn widened(cover: &Cover, point: &Point) -> Cover
    ensures bounds { result.bounds.ranks ≡ widened cover.now.bounds.ranks point.now.rank }
    ensures numbers { result.bounds.numbers ≡ widened cover.now.bounds.numbers point.now.number }
    ensures first { result.first
        ≡ (if nat_le cover.now.first point.now.line then cover.now.first else point.now.line) }
{
    Cover {
        bounds: Rectangle {
            ranks: cover.bounds.ranks.widened(point.rank),
            numbers: cover.bounds.numbers.widened(point.number),
        },
        first: if cover.first <= point.line {
            cover.first
        } else {
            point.line
        },
    }
}

/// The cover of some points.
fn cover_of(points: &[Point]) -> Cover
    requires { 0 < length points.now }
    ensures { IsCoverOf points.now result }
{
    let mut cover = points[0].cover();
    for point in points {
        cover = widened(&cover, point);
    }
    cover
}

/// Appends a tree of points to the nodes. Its levels divide the points at the median of the
/// numbers and at that of the ranks in turn. Fails only if it is out of memory.
fn add_points(
    nodes: &mut Vec<Node>,
    points: &mut [Point],
    by_number: bool,
) -> Result<(), AllocError>
    requires { length nodes.old.items + length points.old < 2 ^ 32 }
    ensures { IfOk result (λ _. AddsPoints points.old nodes.old.items nodes.new.items) }
{
    if points.is_empty() {
        return Ok(());
    }
    let start = nodes.len();
    let cover = cover_of(points);
    let middle = points.len() / 2;
    let (front, point, back) = points.select_nth_unstable_by_key(
        middle,
        |point| point.key(by_number),
    );
    let point = *point;
    add_points(nodes, front, !by_number)?;
    add_points(nodes, back, !by_number)?;
    nodes.push(Node {
        point,
        cover,
        start: start as u32,
    })?;
    Ok(())
}

/// A tree of points, by its nodes. Fails only if it is out of memory.
pub fn tree_of(alloc: Global, mut points: Vec<Point>) -> Result<Vec<Node>, AllocError>
    requires { length points.items < 2 ^ 32 }
    ensures { IfOk result (λ nodes. AddsPoints points.items [] nodes.items) }
{
    let mut nodes = Vec::with_capacity(alloc, points.len())?;
    add_points(&mut nodes, &mut points, true)?;
    Ok(nodes)
}

/// The first line that a search finds in some nodes, which end before an index.
#[derive(Clone, Copy)]
struct Step {
    // The index of the first of the nodes.
    start: usize,
    // The index of the first of their lines in the rectangle, if there is one.
    first: Option<usize>,
}

/// Searches the last node before an index: all of its subtree if no point of that is in the
/// rectangle or all of them are, and else this node alone.
fn step_before(nodes: &[Node], end: usize, wanted: &Rectangle) -> Step
    requires tree { IsTree nodes.now }
    requires some { 0 < end }
    requires within { end ≤ length nodes.now }
    ensures forward { result.start < end }
    ensures first { IsFirst (2 ^ 32) (IsHeld nodes.now wanted.now result.start end) result.first }
{
    let node = &nodes[end - 1];
    let bounds = node.cover.bounds;
    if !bounds.meets(wanted) {
        return Step {
            start: node.start as usize,
            first: None,
        };
    }
    if bounds.is_within(wanted) {
        return Step {
            start: node.start as usize,
            first: Some(node.cover.first as usize),
        };
    }
    let own = if wanted.has(&node.point) {
        Some(node.point.line as usize)
    } else {
        None
    };
    Step {
        start: end - 1,
        first: own,
    }
}

/// The index of the first line of a tree in a rectangle, if there is one.
pub fn first_within(nodes: &[Node], wanted: &Rectangle) -> Option<usize>
    requires { IsTree nodes.now }
    ensures { IsFirst (2 ^ 32) (IsHeld nodes.now wanted.now 0 (length nodes.now)) result }
{
    let mut first = None;
    let mut end = nodes.len();
    while end > 0 {
        let step = step_before(nodes, end, wanted);
        first = least(first, step.first);
        end = step.start;
    }
    first
}
