//! What is noted of all harts.
ghost use Rattle.std.specs.Prelude.{◌≡◌, ◌∷◌, ◌++◌, [], ◌≤◌, ◌<◌, ℕ, List, length, map, All, IfOk, Some, None, take, slice_get, option_map, option_to_list, MatchOption, if◌then◌else◌};
ghost use Rattle.coz_types.specs.declared.TheConstants.{HARTS};
ghost use Rattle.hart_states.specs.declared.change.Change.{Change};
ghost use Rattle.hart_states.specs.declared.change.Interval.{Interval};
ghost use Rattle.hart_states.specs.Changes.{InOrder, earliest, ended_by, intervals};
ghost use Rattle.hart_handovers.specs.declared.handover.Handover.{Handover};
ghost use Rattle.hart_handovers.specs.Handovers.{handover as handover_of, handovers, runs};
ghost use Rattle.hart_turns.specs.declared.turns.Rooms.{Rooms};
ghost use Rattle.hart_turns.specs.Firsts.{held};
ghost use Rattle.hart_turns.specs.Lives.{AreTicks, handover_by};
ghost use Rattle.hart_turns.specs.Turns.{Tell, after_retirement, after_wake, first_change, left_at, left_since, next_activity, changed, with_each, with_own};

use crate::firsts::Firsts;
use crate::life::{Life, Ticks, UNMADE, after, ended, handover, is_gone, runs, ticks_at};
use coz_types::{HartId, Tick};
use hart_handovers::{Handover, Way};
use hart_states::{Activity, Change, Interval};
use machines::Fate;
use std::alloc::{AllocError, Global};
use timing_state::Places;

/// How many items are kept.
#[derive(Clone, Copy)]
pub struct Rooms {
    /// The most intervals.
    pub intervals: usize,
    /// The most hand-overs.
    pub handovers: usize,
}

/// A retirement.
#[derive(Clone, Copy)]
pub struct Retirement {
    /// The hart that retires.
    pub hart: HartId,
    /// When, in net ticks.
    pub moment: Tick,
    /// The place of its instruction, as the caller numbers places.
    pub place: u32,
    /// The hart's fate by its guest alone.
    pub own: Fate,
    /// Its fate on cores.
    pub fate: Fate,
}

/// A sleeping hart that wakes.
#[derive(Clone, Copy)]
pub struct Woken {
    /// The hart.
    pub hart: HartId,
    /// When, in net ticks.
    pub moment: Tick,
    /// The place of its next instruction, as the caller numbers places.
    pub place: u32,
}

/// What is noted of the harts of a run. `new` alone can be out of memory.
///
/// Contracts say what it tells of a list of changes, the latest first.
#[derive(Drop)]
pub struct Turns {
    lives: Places<Life>,
    intervals: Firsts<Interval>,
    handovers: Firsts<Handover>,
}

/// What a hart does after its retirement, if it stops.
fn next_activity(fate: Fate, own: Fate) -> Option<Activity>
    ensures { result ≡ next_activity fate own }
{
    match fate {
        Fate::Goes | Fate::Ends(_) => None,
        Fate::Waits => {
            if matches!(own, Fate::Goes) {
                Some(Activity::Ready)
            } else {
                Some(Activity::Waiting)
            }
        }
        Fate::Leaves => Some(Activity::Gone),
        Fate::Sleeps(_) => Some(Activity::Sleeping),
    }
}

/// Keeps the interval that a change ends.
fn keep_interval(intervals: &mut Firsts<Interval>, last: Option<Change>, change: Change)
    ensures { (room : ℕ) (all : List Interval) → intervals.old ≡ held room all
        → intervals.new ≡ held room (all ++ option_to_list (ended_by last change)) }
{
    if let Some(interval) = ended(last, change) {
        intervals.add(interval);
    }
}

/// Keeps the hand-over to a hart that a change has run.
fn keep_handover(handovers: &mut Firsts<Handover>, life: Life, change: Change)
    ensures { (room : ℕ) (all : List Handover) → handovers.old ≡ held room all
        → handovers.new
        ≡ held room (all ++ (if runs change.to then handover_by life change ∷ [] else [])) }
{
    if runs(change.to) {
        handovers.add(handover(life, change));
    }
}

/// The hand-over with which a run begins.
fn first_handover() -> Handover
    ensures { (place : ℕ) → result ≡ handover_of (first_change place) [] }
{
    Handover {
        moment: 0,
        slept: 0,
        hart: HartId(0),
        by: HartId(0),
        way: Way::Start,
    }
}

/// When a hart exited, by its latest change.
fn left_since(last: Option<Change>) -> Option<Tick>
    ensures { result ≡ left_since last }
{
    let change = last?;
    if is_gone(change.to) {
        return Some(change.moment);
    }
    None
}

/// Notes a change of a hart.
fn note(turns: &mut Turns, change: Change)
    requires low { change.hart.0 < HARTS }
    ensures { (rooms : Rooms) (past : List Change) → Tell rooms past turns.old
        → InOrder change.moment past → Tell rooms (change ∷ past) turns.new }
{
    let life = turns.lives.get(change.hart, UNMADE);
    keep_interval(&mut turns.intervals, life.last, change);
    keep_handover(&mut turns.handovers, life, change);
    turns.lives.put(change.hart, after(life, change), UNMADE);
}

/// Notes that a hart does this from a retirement on.
fn change(turns: &mut Turns, retirement: Retirement, activity: Activity, hart: HartId)
    requires low { hart.0 < HARTS }
    ensures { (rooms : Rooms) (past : List Change) → Tell rooms past turns.old
        → InOrder retirement.moment past
        → Tell rooms (changed retirement activity hart.0 ∷ past) turns.new }
{
    let change = Change {
        hart,
        to: activity,
        moment: retirement.moment,
        by: retirement.hart,
        place: retirement.place,
    };
    note(turns, change);
}

/// Notes that these harts do this from a retirement on.
fn change_each(turns: &mut Turns, retirement: Retirement, activity: Activity, harts: &[HartId])
    requires low { All (λ hart. hart.0 < HARTS) harts.now }
    ensures { (rooms : Rooms) (past : List Change) → Tell rooms past turns.old
        → InOrder retirement.moment past
        → Tell rooms (with_each retirement activity (map (λ hart. hart.0) harts.now) past)
        turns.new }
{
    for hart in harts {
        change(turns, retirement, activity, *hart);
    }
}

/// Notes what the hart of a retirement does next.
fn change_own(turns: &mut Turns, retirement: Retirement)
    requires low { retirement.hart.0 < HARTS }
    ensures { (rooms : Rooms) (past : List Change) → Tell rooms past turns.old
        → InOrder retirement.moment past
        → Tell rooms (with_own retirement (next_activity retirement.fate retirement.own) past)
        turns.new }
{
    if let Some(activity) = next_activity(retirement.fate, retirement.own) {
        change(turns, retirement, activity, retirement.hart);
    }
}

impl Turns {
    /// Begins with hart 0, which runs from moment 0 on, and takes all memory that is needed later.
    /// The place is that of its first instruction. Fails only if out of memory.
    pub fn new(alloc: Global, rooms: Rooms, place: u32) -> Result<Turns, AllocError>
        ensures { IfOk result (λ turns. Tell rooms (first_change place ∷ []) turns) }
    {
        let first = Change {
            hart: HartId(0),
            to: Activity::Running,
            moment: 0,
            by: HartId(0),
            place,
        };
        let mut turns = Turns {
            lives: Places::new(alloc, after(UNMADE, first))?,
            intervals: Firsts::new(alloc, rooms.intervals)?,
            handovers: Firsts::new(alloc, rooms.handovers)?,
        };
        turns.handovers.add(first_handover());
        Ok(turns)
    }

    /// Notes a retirement after which the run goes on. `others` are the harts that the guest made
    /// or woke with it, and `started` those that begin to run: on cores a hart that was made or woken
    /// first stands in line. The retiring hart is not among them, unless it gave its core up and
    /// has it again at once.
    pub fn retire(&mut self, retirement: Retirement, others: &[HartId], started: &[HartId])
        requires low { retirement.hart.0 < HARTS }
        requires others { All (λ hart. hart.0 < HARTS) others.now }
        requires started { All (λ hart. hart.0 < HARTS) started.now }
        ensures { (rooms : Rooms) (past : List Change) → Tell rooms past self.old
            → InOrder retirement.moment past
            → Tell rooms (after_retirement retirement (map (λ hart. hart.0) others.now)
            (map (λ hart. hart.0) started.now) past) self.new }
    {
        change_own(self, retirement);
        change_each(self, retirement, Activity::Ready, others);
        change_each(self, retirement, Activity::Running, started);
    }

    /// Notes that a sleeping hart wakes.
    pub fn wake(&mut self, woken: Woken)
        requires low { woken.hart.0 < HARTS }
        ensures { (rooms : Rooms) (past : List Change) → Tell rooms past self.old
            → InOrder woken.moment past → Tell rooms (after_wake woken past) self.new }
    {
        let change = Change {
            hart: woken.hart,
            to: Activity::Running,
            moment: woken.moment,
            by: woken.hart,
            place: woken.place,
        };
        note(self, change);
    }

    /// The ticks for which a hart has run, waited, slept and been ready up to a moment.
    pub fn ticks(&self, hart: HartId, now: Tick) -> Ticks
        ensures { (rooms : Rooms) (past : List Change) → Tell rooms past self.now
            → InOrder now past → AreTicks hart.0 now past result }
    {
        ticks_at(self.lives.get(hart, UNMADE), now)
    }

    /// The change with which a hart was made; None of one that was not.
    pub fn first(&self, hart: HartId) -> Option<Change>
        ensures { (rooms : Rooms) (past : List Change) → Tell rooms past self.now
            → result ≡ earliest hart.0 past }
    {
        self.lives.get(hart, UNMADE).first
    }

    /// When a hart exited, in net ticks, if it has gone.
    pub fn left(&self, hart: HartId) -> Option<Tick>
        ensures { (rooms : Rooms) (past : List Change) → Tell rooms past self.now
            → result ≡ left_at hart.0 past }
    {
        left_since(self.lives.get(hart, UNMADE).last)
    }

    /// The intervals that are kept: the first that ended.
    pub fn intervals(&self) -> &[Interval]
        ensures { (rooms : Rooms) (past : List Change) → Tell rooms past self.now
            → result.now ≡ take rooms.intervals (intervals past) }
    {
        self.intervals.items()
    }

    /// The end of the first interval for which there was no room, in net ticks: all that ended
    /// before it are kept.
    pub fn cut(&self) -> Option<Tick>
        ensures { (rooms : Rooms) (past : List Change) → Tell rooms past self.now
            → result ≡ option_map (λ (i : Interval). i.to.moment)
            (slice_get (intervals past) rooms.intervals) }
    {
        match self.intervals.left_out() {
            Some(interval) => Some(interval.to.moment),
            None => None,
        }
    }

    /// The hand-overs, in order of time; None if there was no room for all.
    pub fn handovers(&self) -> Option<&[Handover]>
        ensures { (rooms : Rooms) (past : List Change) → Tell rooms past self.now
            → MatchOption result (rooms.handovers < length (handovers past))
            (λ list. list.now ≡ handovers past) }
    {
        if self.handovers.left_out().is_some() {
            return None;
        }
        Some(self.handovers.items())
    }
}
