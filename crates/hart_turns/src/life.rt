//! What is noted of each hart.
ghost use Rattle.std.specs.Prelude.{◌≡◌, ◌<◌, ◌^◌};
ghost use Rattle.hart_states.specs.Changes.{ended_by, is_gone};
ghost use Rattle.hart_handovers.specs.Handovers.{runs, slept_since, way_from};
ghost use Rattle.hart_turns.specs.Lives.{after, handover_by, settled, way_by, with_ticks};

use coz_types::Tick;
use hart_handovers::{Handover, Way};
use hart_states::{Activity, Change, Interval};

/// For how long a hart has done what.
#[derive(Clone, Copy)]
pub struct Ticks {
    /// The ticks that it ran.
    pub runs: Tick,
    /// The ticks that it waited until another hart woke it.
    pub waits: Tick,
    /// The ticks that it slept.
    pub sleeps: Tick,
    /// The ticks that it could run, and stood in line for a core.
    pub ready: Tick,
}

/// What is noted of a hart.
#[derive(Clone, Copy)]
pub struct Life {
    /// Its first change.
    pub first: Option<Change>,
    /// Its latest change.
    pub last: Option<Change>,
    /// The way in which it would have come to run at its latest change.
    pub way: Way,
    /// Its ticks up to its latest change.
    pub ticks: Ticks,
}

/// Nothing was noted of a hart.
pub const UNMADE: Life = Life {
    first: None,
    last: None,
    way: Way::Clone,
    ticks: Ticks {
        runs: 0,
        waits: 0,
        sleeps: 0,
        ready: 0,
    },
};

/// Adds to the ticks of what a hart did. None are counted after it has gone.
fn with_ticks(ticks: Ticks, activity: Activity, more: Tick) -> Ticks
    ensures { result ≡ with_ticks activity more ticks }
{
    match activity {
        Activity::Running => Ticks {
            runs: ticks.runs.saturating_add(more),
            ..ticks
        },
        Activity::Waiting => Ticks {
            waits: ticks.waits.saturating_add(more),
            ..ticks
        },
        Activity::Sleeping => Ticks {
            sleeps: ticks.sleeps.saturating_add(more),
            ..ticks
        },
        Activity::Ready => Ticks {
            ready: ticks.ready.saturating_add(more),
            ..ticks
        },
        Activity::Gone => ticks,
    }
}

/// The ticks of a hart up to a moment.
pub fn ticks_at(life: Life, now: Tick) -> Ticks
    ensures value { result ≡ settled life.ticks life.last now }
    ensures fits { now < 2 ^ 64 }
{
    match life.last {
        None => life.ticks,
        Some(change) => with_ticks(life.ticks, change.to, now.saturating_sub(change.moment)),
    }
}

/// The way to run from an activity, if it began now or not.
fn way_from(activity: Activity, is_now: bool, before: Way) -> Way
    ensures { result ≡ way_from activity is_now before }
{
    match activity {
        Activity::Running => Way::Core,
        Activity::Waiting => Way::Wake,
        Activity::Sleeping => Way::Sleep,
        Activity::Ready => { if is_now { before } else { Way::Core } }
        Activity::Gone => Way::Clone,
    }
}

/// The way in which a hart comes to run at a moment.
fn way_at(life: Life, moment: Tick) -> Way
    ensures { result ≡ way_by life.last life.way moment }
{
    match life.last {
        None => Way::Clone,
        Some(change) => way_from(change.to, change.moment == moment, life.way),
    }
}

/// The ticks that a hart has slept by a moment at which it runs.
fn slept(last: Option<Change>, moment: Tick) -> Tick
    ensures { result ≡ slept_since last moment }
{
    match last {
        None => 0,
        Some(change) => match change.to {
            Activity::Sleeping => moment.saturating_sub(change.moment),
            _ => 0,
        },
    }
}

/// The hand-over to a hart that a change has run, by what was noted of it before.
pub fn handover(life: Life, change: Change) -> Handover
    ensures { result ≡ handover_by life change }
{
    Handover {
        moment: change.moment,
        slept: slept(life.last, change.moment),
        hart: change.hart,
        by: change.by,
        way: way_at(life, change.moment),
    }
}

/// Whether a hart has gone.
pub fn is_gone(activity: Activity) -> bool
    ensures { result ≡ is_gone activity }
{
    matches!(activity, Activity::Gone)
}

/// Whether a hart runs.
pub fn runs(activity: Activity) -> bool
    ensures { result ≡ runs activity }
{
    matches!(activity, Activity::Running)
}

/// The interval that a change ends, if it took time and the hart had not gone.
pub fn ended(last: Option<Change>, change: Change) -> Option<Interval>
    ensures { result ≡ ended_by last change }
{
    let from = last?;
    if is_gone(from.to) {
        return None;
    }
    if from.moment < change.moment {
        return Some(Interval { from, to: change });
    }
    None
}

/// What is noted of a hart after a change of it.
pub fn after(life: Life, change: Change) -> Life
    ensures value { result ≡ after life change }
    ensures fits { change.moment < 2 ^ 64 }
{
    Life {
        first: Some(life.first.unwrap_or(change)),
        last: Some(change),
        way: way_at(life, change.moment),
        ticks: ticks_at(life, change.moment),
    }
}
