//! Tests of `progress_points`.
ghost use Rattle.std.specs.Prelude.{◌≡◌, ◌<◌, length, All};

use crate::checks::check_equal;
use crate::line_index_tests::{A_S, Statement, index_of};
use coz_types::{Address, LineId, PointId};
use line_index::LineIndex;
use progress_points::{Points, PointsError};
use std::alloc::Global;
use std::process::Abort;
use std::test::Fail;

/// Lines 1 and 2 by turns, four bytes each, and then no line.
static STATEMENTS: [Statement; 5] = [
    (0, 0x10000, 0, 1),
    (0, 0x10004, 0, 2),
    (0, 0x10008, 0, 1),
    (0, 0x1000C, 0, 2),
    (0, 0x10010, 0, 0),
];

/// An address and its point.
type Place = (Address, Option<PointId>);

/// The points of both lines.
/// By hand, as the next two tables: docs/FORMATS.md, Lines and progress points.
static BOTH: [Place; 7] = [
    (0xFFFF, None),
    (0x10000, Some(PointId(0))),
    (0x10002, None),
    (0x10004, Some(PointId(1))),
    (0x10008, Some(PointId(0))),
    (0x1000C, Some(PointId(1))),
    (0x10010, None),
];

/// The point of the second line.
static SECOND: [Place; 4] = [
    (0x10000, None),
    (0x10004, Some(PointId(0))),
    (0x10008, None),
    (0x1000C, Some(PointId(0))),
];

/// No points.
static NONE: [Place; 2] = [(0x10000, None), (0x10004, None)];

/// The line of the second point.
fn second_line(points: &Points) -> Option<LineId> {
    if points.count() > 1 {
        Some(points.line(PointId(1)))
    } else {
        None
    }
}

/// Compares the points of some lines at addresses, how many there are, and the line of the second.
fn check_points(
    rt: &impl Abort,
    alloc: Global,
    index: &LineIndex,
    lines: &[LineId],
    places: &[Place],
) -> Result<(), PointsError>
    requires { All (λ line. line.0 < length index.now.lines) lines.now }
{
    let points = Points::new(alloc, index, lines)?;
    for &(address, point) in places {
        check_equal(rt, (address, points.point_at(address)), (address, point));
    }
    let found = (points.count() as usize, second_line(&points));
    check_equal(rt, found, (lines.len(), lines.get(1).copied()));
    drop(points);
    Ok(())
}

/// Checks that 64 lines may have points, and no more.
fn check_most(rt: &impl Abort, alloc: Global, index: &LineIndex) -> Result<(), PointsError>
    requires { length index.now.lines ≡ 2 }
{
    check_points(rt, alloc, index, &[LineId(0); 64], &[])?;
    let more = Points::new(alloc, index, &[LineId(0); 65]);
    check_equal(rt, more.err(), Some(PointsError::TooMany(65)));
    Ok(())
}

fn check_lists(rt: &impl Abort, alloc: Global, index: &LineIndex) -> Result<(), PointsError>
    requires { length index.now.lines ≡ 2 }
{
    check_points(rt, alloc, index, &[LineId(0), LineId(1)], &BOTH)?;
    check_points(rt, alloc, index, &[LineId(1)], &SECOND)?;
    check_points(rt, alloc, index, &[], &NONE)?;
    check_most(rt, alloc, index)
}

#[test]
fn the_entries_of_at_most_64_lines_have_their_points(rt: HostRuntime) -> Result<(), Fail> {
    let index = index_of(rt.alloc(), &[A_S], &STATEMENTS)?;
    check_equal(&rt, index.count(), 2);
    let checked = if index.count() == 2 {
        check_lists(&rt, rt.alloc(), &index)
    } else {
        Ok(())
    };
    // By a call, since a drop in place is proved part by part.
    drop(index);
    Ok(checked?)
}
