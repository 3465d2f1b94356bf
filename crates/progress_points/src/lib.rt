//! Progress points: whenever a hart retires at an entry address of a progress line,
//! that line's point is visited.
#![tactic(auto)]

mod marks;

ghost use Rattle.std.specs.Prelude.{◌≡◌, ◌<◌, length, All, Some, MatchResult, option_map, slice_get};
ghost use Rattle.coz_types.specs.declared.LineId.{LineId};
ghost use Rattle.progress_points.specs.declared.PointsError.TheVariants.{Memory};
ghost use Rattle.progress_points.specs.Points.{Points, IsPoints, IsFault, point_of, ids};

use crate::marks::{Mark, first_mark, marks_of};
use coz_types::{Address, LineId, MAX_POINTS, PointId};
use line_index::LineIndex;
use std::alloc::{AllocError, AllocFailed, Global};
use std::marker::Model;

/// Why there are no points.
#[derive(Clone, Copy, Debug, PartialEq, Eq)]
pub enum PointsError {
    /// The number of lines, which exceeds `MAX_POINTS`.
    TooMany(u64),
    /// Out of memory.
    Memory,
}

impl From<AllocError> for PointsError {
    ghost from_gives = { λ _ e. e ≡ Memory };

    fn from(_e: AllocError) -> PointsError {
        PointsError::Memory
    }
}

impl<T: Drop> From<AllocFailed<T>> for PointsError {
    ghost from_gives = { λ _ e. e ≡ Memory };

    fn from(_e: AllocFailed<T>) -> PointsError {
        PointsError::Memory
    }
}

/// Progress points: lines whose entry addresses are counted. A point's number is
/// the position of its line.
///
/// After C. Curtsinger and E. D. Berger, "Coz: finding code that counts with causal profiling",
/// SOSP 2015. `new` alone can be out of memory.
#[derive(Drop)]
pub struct Points {
    lines: Vec<LineId>,
    marks: Vec<Mark>,
}

impl Model for Points {
    ghost use Rattle.progress_points.specs.Points.{Points};

    ghost Value = { Points };

    ghost use Rattle.progress_points.specs.View.{points_view, IsInOrder};

    ghost view = { points_view };

    ghost invariant = { IsInOrder };
}

impl Points {
    /// The points of these lines. An address that is an entry of several of them has the point
    /// of the first. Err says that there are more than 64, or that it is out of memory.
    pub fn new(alloc: Global, index: &LineIndex, lines: &[LineId]) -> Result<Points, PointsError>
        requires { All (λ (line : LineId). line.0 < length index.now.lines) lines.now }
        ensures { MatchResult result (IsPoints index.now (ids lines.now))
            (IsFault (length lines.now)) }
    {
        if lines.len() > MAX_POINTS {
            return Err(PointsError::TooMany(lines.len() as u64));
        }
        Ok(Points {
            lines: Vec::from_slice(alloc, lines)?,
            marks: marks_of(alloc, index, lines)?,
        })
    }

    /// The point of an address, unless it has none: in logarithmic time in the number of entries.
    pub fn point_at(&self, address: Address) -> Option<PointId>
        ensures { result ≡ option_map (λ p. record { 0 = p }) (point_of self.now address) }
    {
        first_mark(&self.marks, address).map(|mark| PointId(mark.point))
    }

    /// The number of points.
    pub fn count(&self) -> u32
        ensures { result ≡ length self.now.lines }
    {
        self.lines.len() as u32
    }

    /// The line of a point.
    pub fn line(&self, point: PointId) -> LineId
        requires { point.0 < length self.now.lines }
        ensures { slice_get self.now.lines point.0 ≡ Some result.0 }
    {
        self.lines[usize::from(point.0)]
    }
}

fn is_shared<T: Send + Sync>() {}

// Workers share points.
fn points_are_shared() {
    is_shared::<Points>()
}
