//! What the harts of a run do, by its changes: a hart that was made runs, waits, sleeps or is ready
//! until it has gone. The definitions are the time that it spends so, and the intervals of it.
//!
//! A change is kept with who brought it about: the hart that retired, or the one that woke.
//!
//! The definitions stand in `specs/`. They see the changes of a run as a list, the latest first.
#![tactic(auto)]

ghost use Rattle.hart_states.specs.Laws.{EarliestIsMaking, IntervalsTile, TicksAreLives, TicksAreWithin};

mod change;

pub use change::{Activity, Change, Interval};

/// The ticks that a hart has run, waited, slept, been ready and been gone are together those since
/// it was made; of a hart that stays gone the first four are those of its life.
pub fn ticks_are_lives()
    ensures { TicksAreLives }
{}

/// No hart has done anything for longer than a run has taken.
pub fn ticks_are_within()
    ensures { TicksAreWithin }
{}

/// If no hart comes back that has gone, the intervals of each hart tile the time from when it was
/// made to its latest change, without gap or overlap.
pub fn intervals_tile()
    ensures { IntervalsTile }
{}

/// A hart was made at its earliest change.
pub fn earliest_is_making()
    ensures { EarliestIsMaking }
{}
