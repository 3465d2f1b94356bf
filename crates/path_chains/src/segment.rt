//! The segments of a path: its maximal runs on one hart.
ghost use Rattle.std.specs.Prelude.{◌≡◌};
ghost use Rattle.path_chains.specs.Segments.{after, first_segment, handover};

use crate::event::Event;
use coz_types::{HartId, Tick};

/// The way in which a hart came to carry a path.
#[derive(Clone, Copy)]
pub enum Handover {
    /// The program began with it.
    Start,
    /// Another hart made it.
    Clone,
    /// Another hart woke it.
    Wake,
}

/// A maximal run of a path on one hart.
#[derive(Clone, Copy)]
pub struct Segment {
    /// The hart.
    pub hart: HartId,
    /// When the event ahead of its first was due, in net ticks, or 0.
    pub start: Tick,
    /// When its last event was due, in net ticks.
    pub end: Tick,
    /// The way in which the hart came to carry the path.
    pub by: Handover,
}

/// The segment of the first event of a path.
pub fn first_segment(event: &Event) -> Segment
    ensures { result ≡ first_segment event.now }
{
    Segment {
        hart: event.hart,
        start: 0,
        end: event.due,
        by: Handover::Start,
    }
}

/// The segment of the first event of a path, if it goes on to this last one.
pub fn whole_segment(first: &Event, last: &Event) -> Segment
    ensures { result ≡ record (first_segment first.now) { end = last.now.due } }
{
    Segment {
        end: last.due,
        ..first_segment(first)
    }
}

/// The way in which the hart of an event came to carry the path with it.
#[inline(always)]
fn taken_by(event: &Event) -> Handover
    ensures { result ≡ handover event.now }
{
    match event.before {
        Some(_) => Handover::Wake,
        None => Handover::Clone,
    }
}

/// The segment that an event is in, if the one ahead of it is in this one.
#[inline(always)]
pub fn after(segment: Segment, event: &Event) -> Segment
    ensures { result ≡ after segment event.now }
{
    if event.hart.0 == segment.hart.0 {
        return Segment {
            end: event.due,
            ..segment
        };
    }
    Segment {
        hart: event.hart,
        start: segment.end,
        end: event.due,
        by: taken_by(event),
    }
}
