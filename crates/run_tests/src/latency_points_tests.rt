//! Tests of `latency_points`.
ghost use Rattle.std.specs.Prelude.{◌≡◌, ◌+◌, ◌≤◌, ◌<◌};
ghost use Rattle.latency_points.specs.Flow.{counted};

use crate::checks::check_equal;
use coz_types::{HartId, PointId, Tick, Visit};
use latency_points::{Flow, Latency, measure};

/// The latest moment that there may be.
const LATEST: Tick = 100_000_000_000_000_000;

/// The most calls of a case.
const MAX_CALLS: u64 = 8;

/// Moments, at each of which a request arrives, or else one departs; the end, and the latency.
/// By hand, from docs/FORMATS.md, Text of latency.
static CALLS: [(&[(bool, Tick)], Tick, Latency); 3] = [
    (
        &[(false, 5), (true, 10), (true, 20), (false, 50)],
        60,
        Latency {
            arrivals: 2,
            departures: 1,
            stray: 1,
            unended: 1,
            area: 80,
            mean: Some(80),
        },
    ),
    (
        &[],
        LATEST,
        Latency {
            arrivals: 0,
            departures: 0,
            stray: 0,
            unended: 0,
            area: 0,
            mean: None,
        },
    ),
    (
        &[(true, 0)],
        LATEST,
        Latency {
            arrivals: 1,
            departures: 0,
            stray: 0,
            unended: 1,
            area: LATEST as u128,
            mean: None,
        },
    ),
];

fn give(flow: &mut Flow, arrives: bool, net: Tick)
    requires later { flow.old.latest ≤ net }
    requires soon { net ≤ LATEST }
    requires few { counted flow.old < MAX_CALLS }
    ensures latest { flow.new.latest ≡ net }
    ensures counted { counted flow.new ≡ counted flow.old + 1 }
{
    if arrives {
        flow.arrive(net);
    } else {
        flow.depart(net);
    }
}

/// The latency of some calls. None if a moment is less than the one before it or later than
/// `LATEST`, or if there are too many calls.
fn latency_of(calls: &[(bool, Tick)], end: Tick) -> Option<Latency> {
    if calls.len() as u64 > MAX_CALLS {
        return None;
    }
    let mut flow = Flow::new();
    let mut latest = 0;
    for (arrives, net) in calls {
        if *net < latest || *net > LATEST {
            return None;
        }
        latest = *net;
        give(&mut flow, *arrives, latest);
    }
    if end < latest || end > LATEST {
        return None;
    }
    Some(flow.close(end))
}

#[test]
fn arrivals_and_departures_have_their_latency(rt: HostRuntime) {
    for (row, &(calls, end, latency)) in CALLS.iter().enumerate() {
        check_equal(&rt, (row, latency_of(calls, end)), (row, Some(latency)));
    }
}

#[test]
fn as_many_arrivals_and_departures_as_there_may_be_are_counted(rt: HostRuntime) {
    let mut flow = Flow::new();
    for _i in 0u32..1_048_576 {
        flow.arrive(0);
        flow.depart(0);
    }
    let expected = Latency {
        arrivals: 1_048_576,
        departures: 1_048_576,
        stray: 0,
        unended: 0,
        area: 0,
        mean: Some(0),
    };
    check_equal(&rt, flow.close(0), expected);
}

fn visit(point: u16, time: Tick, delay: Tick) -> Visit
    ensures { result ≡ record {
      point = record { 0 = point };
      hart = record { 0 = 0 };
      time = time;
      delay = delay;
    } }
{
    Visit {
        point: PointId(point),
        hart: HartId(0),
        time,
        delay,
    }
}

#[test]
fn a_point_of_both_lists_and_points_after_the_marks_are_counted(rt: HostRuntime) {
    let visits = [
        visit(63, 10, 0),
        visit(64, 30, 10),
        visit(7, 45, 20),
        visit(65535, 60, 30),
        visit(64, 70, 30),
    ];
    let arrive = [PointId(63), PointId(64)];
    let depart = [PointId(64), PointId(65535)];
    let expected = Latency {
        arrivals: 3,
        departures: 3,
        stray: 0,
        unended: 0,
        area: 20,
        mean: Some(6),
    };
    check_equal(&rt, measure(&visits, &arrive, &depart, 50), expected);
}
