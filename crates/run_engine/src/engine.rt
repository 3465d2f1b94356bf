//! The engine that both machines use, and its events.
ghost use Rattle.std.specs.Prelude.{◌≡◌, ℕ, map, true, false, ◌+◌, ◌^◌, ◌≤◌, ◌<◌, ◌++◌, [], ◌∷◌, Some, None, length, nat_le, is_some, IfOk, All, if◌then◌else◌, IsTrue, MatchOption};
ghost use Rattle.coz_types.specs.declared.TheConstants.{MAX_BUDGET, MAX_SPEEDUP, MAX_OUTPUT, MAX_VISITS};
ghost use Rattle.hart_schedule.specs.Keys.{key_of, with_key, without_key, IsEmpty, IsLeast};
ghost use Rattle.machines.specs.Delayed.{is_any};
ghost use Rattle.machines.specs.declared.Fate.TheVariants.{Goes, Sleeps};
ghost use Rattle.machines.specs.Guest.{goes_on};
ghost use Rattle.machines.specs.Shortened.{has_due_any};
ghost use Rattle.progress_points.specs.Points.{point_of};
ghost use Rattle.timing_laws.specs.Noted.{note_of};
ghost use Rattle.timed_guest.specs.Guest.{making, is_running, is_sleeping, pc_of, IsMade};
ghost use Rattle.timed_guest.specs.Retire.{retire, retirement};
ghost use Rattle.run_engine.specs.Begin.{last_moment, started_by, keys_at_rest, many, AreIdle, AreBegun};
ghost use Rattle.run_engine.specs.Ending.{ending_of, runs_after};
ghost use Rattle.run_engine.specs.Engine.{AreWithin};
ghost use Rattle.run_engine.specs.Far.{IsLimit};
ghost use Rattle.run_engine.specs.Visits.{visits_of};
ghost use Rattle.run_engine.specs.Advance.{is_wake};
ghost use Rattle.timing_model.specs.Timing.{IsUsual};

use crate::start::{add_if, begin, begin_again, begin_each, begin_next, cost_on};
use crate::{Choice, MarkedSetting, Setting, Visits};
use coz_types::{Address, Ending, HARTS, HartId, Image, Tick, Visit};
use guest_calls::Fate;
use guest_futex::HartList;
use hart_schedule::Schedule;
use std::alloc::{AllocError, Global};
use timed_guest::TimedGuest;

/// The hart that a program begins with: hart 0.
pub const FIRST: HartId = HartId(0);

/// No moment of a run is later, in ticks.
const LATEST: Tick = 70_000_000_000_000_000;

/// A run of a program in net time, which the delayed and the shortened machine share:
/// its guest, the harts that are due, the visits and the counts. It has no delays:
/// an instruction of the selected line takes what the speedup of its setting leaves of its cost,
/// and the caller passes the delay of each visit. `advance` makes one event of the run.
///
/// Times are in ticks, 100 to a cycle. The fields are public for the machine on the engine, which
/// reads them at each event; a fork of a lead also makes harts of `schedule` due sooner.
#[derive(Drop)]
pub struct Engine<'a> {
    /// The guest on its machine: its memory, its harts, what it wrote, and who has a core.
    pub guest: TimedGuest<'a>,
    /// The net time at which each running hart retires its next instruction, and each sleeping
    /// hart wakes. A raise of the global delay changes none of these times.
    pub schedule: Schedule,
    /// The harts that the last retirement made or woke, in order.
    pub started: HartList,
    /// Of the harts that began an instruction at the last event, in order, those whose
    /// instruction has the selected line.
    pub selected: HartList,
    /// The visits so far, in order. The time of each is its net time plus its delay.
    pub visits: Visits,
    /// The net time of the last retirement; 0 before the first.
    pub time: Tick,
    /// The number of retired instructions.
    pub retired: u64,
    /// The number of wakes of sleeping harts.
    pub wakes: u64,
    /// The number of instructions of the selected line that were begun.
    pub starts: u64,
    /// The ending of the run; None while it goes on.
    pub ending: Option<Ending>,
}

/// A hart that has retired an instruction, and its fate.
#[derive(Clone, Copy)]
pub struct Retired {
    /// The hart that retired.
    pub hart: HartId,
    /// The fate of the hart.
    pub fate: Fate,
}

/// A hart, and when it retires or wakes, in net ticks.
#[derive(Clone, Copy)]
pub struct Turn {
    /// The hart that is due.
    pub hart: HartId,
    /// When it retires or wakes.
    pub due: Tick,
}

/// An event: the move of the hart that was due first.
#[derive(Clone, Copy)]
pub enum Event {
    /// A hart slept, and runs from its due moment on.
    Woke(Turn),
    /// A hart retired an instruction.
    Retired(Retired),
}

/// Whether an event was a wake.
#[inline]
pub fn is_wake(event: Event) -> bool
    ensures { result ≡ is_wake event }
{
    matches!(event, Event::Woke(_))
}

/// The hart that is due first. It stays in the schedule.
#[inline]
fn first_turn(schedule: &Schedule) -> Turn
    requires { ¬ IsEmpty schedule.now }
    ensures due { key_of schedule.now result.hart.0 ≡ Some result.due }
    ensures first { IsLeast schedule.now result.hart.0 }
{
    let Some(first) = schedule.first() else {
        unreachable!()
    };
    Turn {
        hart: first.hart,
        due: first.key,
    }
}

/// The moment before which no other hart than this one, which is due first, has its turn.
#[inline(always)]
fn limit_of(schedule: &Schedule, hart: HartId) -> Tick
    requires first { IsLeast schedule.now hart.0 }
    requires within { AreWithin last_moment schedule.now }
    ensures limit { IsLimit schedule.now hart.0 result }
    ensures soon { result ≤ last_moment + 1 }
{
    match schedule.second() {
        Some(second) if hart.0 < second.hart.0 => second.key + 1,
        Some(second) => second.key,
        None => LATEST,
    }
}

/// Retires the instruction of a running hart whose turn it is. The guest knows net time alone.
#[inline(always)]
fn retire_due(guest: &mut TimedGuest, turn: Turn, started: &mut HartList) -> Fate
    requires running { IsTrue (is_running guest.old turn.hart.0) }
    requires started { started.old ≡ [] }
    requires due { turn.due ≤ last_moment }
    requires count { (note_of guest.old.beside.notes turn.hart.0).count ≤ 2 ^ 61 }
    ensures effect { retirement guest.new result started.new
        ≡ retire guest.old turn.hart.0 turn.due }
    ensures made { making guest.new ≡ making guest.old }
{
    guest.retire(turn.hart, turn.due, started)
}

/// Takes the hart that retired out of the schedule, or puts it at its wake, unless it goes on.
#[inline(always)]
fn reschedule(schedule: &mut Schedule, hart: HartId, fate: Fate)
    requires below { hart.0 < length schedule.old }
    requires wake { (moment : ℕ) → fate ≡ Sleeps moment → moment ≤ last_moment }
    ensures { schedule.new
        ≡ (if goes_on fate then schedule.old else keys_at_rest hart.0 fate schedule.old) }
{
    match fate {
        Fate::Goes => {}
        Fate::Sleeps(moment) => schedule.rekey(hart, moment),
        _ => {
            schedule.take(hart);
        }
    }
}

/// Takes a hart that would go on out of the schedule, since the run ends.
#[inline]
fn reschedule_ended(schedule: &mut Schedule, hart: HartId, fate: Fate)
    ensures { schedule.new
        ≡ (if goes_on fate then without_key hart.0 schedule.old else schedule.old) }
{
    if let Fate::Goes = fate {
        schedule.take(hart);
    }
}

/// Keeps the visit of the point at an address, if there is one.
#[inline(always)]
fn keep_visit(
    setting: &Setting,
    visits: &mut Visits,
    address: Address,
    hart: HartId,
    time: Tick,
    delay: Tick,
)
    requires room { length visits.old.kept < visits.old.limit }
    requires hart { hart.0 < HARTS }
    ensures { visits.new ≡ record visits.old {
      kept = visits.old.kept
          ++ visits_of (point_of setting.now.points.now address) hart.0 time delay;
    } }
{
    if let Some(point) = setting.points.point_at(address) {
        visits.push(Visit {
            point,
            hart,
            time,
            delay,
        });
    }
}

/// Whether a list contains a hart.
#[inline]
pub fn has_any(started: &HartList) -> bool
    ensures { result ≡ is_any started.now }
{
    !started.harts().is_empty()
}

/// Whether some hart is in the schedule.
fn has_due_any(schedule: &Schedule) -> bool
    ensures { result ≡ has_due_any schedule.now }
{
    schedule.least().is_some()
}

/// The ending of a run with a retirement: as the hart's fate says, or as the output or the visits
/// are full, no hart runs or the budget is spent.
#[inline(never)]
fn ending_after(
    fate: Fate,
    output_full: bool,
    visits_full: bool,
    some_hart_runs: bool,
    retired: u64,
    budget: u64,
) -> Option<Ending>
    ensures { result ≡ ending_of fate output_full visits_full some_hart_runs retired budget }
{
    match fate {
        Fate::Ends(ending) => Some(ending),
        _ if output_full => Some(Ending::OutputFull),
        _ if visits_full => Some(Ending::VisitsFull),
        _ if !some_hart_runs => Some(Ending::Stalled),
        _ if budget <= retired => Some(Ending::Spent),
        _ => None,
    }
}

impl<'a> Engine<'a> {
    ghost use Rattle.run_engine.specs.Run.{is_selected_in, selected_of, ticks_in, IsChoice, IsSetting};
    ghost use Rattle.run_engine.specs.Engine.{IsSteady, IsFirst, IsOnMachine};
    ghost use Rattle.run_engine.specs.Advance.{CanComplete, IsAdvance, IsRetired, IsCompleted, IsWoken};
    ghost use Rattle.run_engine.specs.Far.{IsFarAdvance, IsFarRetired, HasPassed, AllowsQuiet};

    /// A run that is about to begin.
    pub fn new(
        alloc: Global,
        image: &'a Image<'a>,
        input: &'a [u8],
        setting: &Setting<'a>,
    ) -> Result<Engine<'a>, AllocError>
        requires { IsSetting setting.now }
        ensures { IfOk result (λ engine. IsFirst setting.now image.now input.now engine) }
    {
        let choice = setting.choice;
        let visits = Visits::new(alloc, choice.visit_limit)?;
        let mut schedule = Schedule::new(alloc, HARTS as u32)?;
        // The guest has many parts: nothing that may fail comes after it.
        let guest = TimedGuest::new(
            alloc,
            image,
            input,
            choice.output_limit,
            choice.layout,
            setting.index,
            setting.timing,
        )?;
        let mut selected = HartList::new();
        begin(setting, &guest, &mut schedule, &mut selected, FIRST, 0);
        let starts = selected.harts().len() as u64;
        Ok(Engine {
            guest,
            schedule,
            started: HartList::new(),
            selected,
            visits,
            time: 0,
            retired: 0,
            wakes: 0,
            starts,
            ending: None,
        })
    }

    /// Makes one move: the hart that is due first wakes if it sleeps, and otherwise retires.
    #[inline(always)]
    pub fn advance(&mut self, setting: &Setting, delay: Tick) -> Event
        requires steady { IsSteady self.old }
        requires speedup { setting.now.choice.speedup ≤ MAX_SPEEDUP }
        requires delay { delay ≤ 10 ^ 17 }
        ensures { IsAdvance setting.now self.old result delay self.new }
    {
        let turn = first_turn(&self.schedule);
        if self.guest.is_sleeping(turn.hart) {
            self.wake(setting, turn);
            Event::Woke(turn)
        } else {
            Event::Retired(self.retire(setting, turn, delay))
        }
    }

    /// Makes one move or more: quiet retirements, which go on, start no other hart, visit no point
    /// and begin no instruction of the selected line, and after them one move as `advance` makes
    /// it. Returns the event of the last move. `delay` is that of all moves: a quiet
    /// retirement raises none.
    #[inline]
    pub fn advance_far(&mut self, marked: &MarkedSetting, delay: Tick) -> Event
        requires steady { IsSteady self.old }
        requires setting { IsSetting marked.now }
        requires machine { IsOnMachine marked.now self.old }
        requires delay { delay ≤ 10 ^ 17 }
        ensures { IsFarAdvance marked.now self.old result delay self.new }
    {
        if !self.guest.is_usual() {
            return self.advance_each(marked, delay);
        }
        loop {
            let turn = first_turn(&self.schedule);
            if self.guest.is_sleeping(turn.hart) {
                self.wake(marked.setting(), turn);
                return Event::Woke(turn);
            }
            let most = self.most_from(marked, turn.hart);
            if most < 2 {
                return Event::Retired(self.retire(marked.setting(), turn, delay));
            }
            if let Some(retired) = self.pass(marked, turn, most, delay) {
                return Event::Retired(retired);
            }
        }
    }

    /// `advance_far` with one retirement after the other, as a machine that is not the usual one
    /// needs it.
    #[inline(never)]
    fn advance_each(&mut self, marked: &MarkedSetting, delay: Tick) -> Event
        requires steady { IsSteady self.old }
        requires setting { IsSetting marked.now }
        requires machine { IsOnMachine marked.now self.old }
        requires delay { delay ≤ 10 ^ 17 }
        ensures { IsFarAdvance marked.now self.old result delay self.new }
    {
        let mut fate = Fate::Goes;
        loop {
            let turn = first_turn(&self.schedule);
            if self.guest.is_sleeping(turn.hart) {
                self.wake(marked.setting(), turn);
                return Event::Woke(turn);
            }
            if marked.may_visit(self.guest.pc(turn.hart)) {
                return Event::Retired(self.retire(marked.setting(), turn, delay));
            }
            let is_quiet = self.pass_once(marked.setting(), turn, delay, &mut fate);
            if is_quiet {
                continue;
            }
            return Event::Retired(Retired {
                hart: turn.hart,
                fate,
            });
        }
    }

    /// Retires the instruction of a running hart whose turn it is, and that visits no point. True
    /// if it was quiet. Otherwise it is completed as `retire` does, and `fate` gets its fate.
    #[inline(always)]
    fn pass_once(&mut self, setting: &Setting, turn: Turn, delay: Tick, fate: &mut Fate) -> bool
        requires steady { IsSteady self.old }
        requires valid { IsSetting setting.now }
        requires machine { IsOnMachine setting.now self.old }
        requires delay { delay ≤ 10 ^ 17 }
        requires turn { key_of self.old.schedule turn.hart.0 ≡ Some turn.due }
        requires first { IsLeast self.old.schedule turn.hart.0 }
        requires running { is_running self.old.guest turn.hart.0 ≡ true }
        requires point { point_of setting.now.points.now (pc_of self.old.guest turn.hart.0)
            ≡ None }
        ensures quiet { result ≡ true → HasPassed setting.now self.old self.new }
        ensures retired { result ≡ false
            → IsFarRetired setting.now self.old turn.hart.0 fate.new delay self.new }
    {
        self.started.clear();
        self.selected.clear();
        let is_alone = self
            .guest
            .retire_on(turn.hart, turn.due, &mut self.started, fate);
        self.time = turn.due;
        self.retired += 1;
        if is_alone {
            *fate = Fate::Goes;
            if self.ends_with(&setting.choice, Fate::Goes) {
                self.settle(setting, turn.hart, Fate::Goes);
                return false;
            }
            return self.go_on(setting, turn);
        }
        self.settle(setting, turn.hart, *fate);
        false
    }

    /// `complete`, apart from the common case of `pass_once`.
    #[inline(never)]
    fn settle(&mut self, setting: &Setting, hart: HartId, fate: Fate)
        requires { CanComplete setting.now self.old hart.0 fate }
        ensures { IsCompleted setting.now self.old hart.0 fate self.new }
    {
        self.complete(setting, hart, fate);
    }

    /// Begins the next instruction of the hart that was due first and has retired. Whether it is
    /// not selected, and due within the moments of a run.
    #[inline(always)]
    fn go_on(&mut self, setting: &Setting, turn: Turn) -> bool
        requires made { IsMade self.old.guest turn.hart.0 }
        requires speedup { setting.now.choice.speedup ≤ MAX_SPEEDUP }
        requires first { IsLeast self.old.schedule turn.hart.0 }
        requires due { turn.due ≤ last_moment }
        requires selected { self.old.selected ≡ [] }
        requires few { self.old.starts ≤ 2 ^ 62 }
        ensures due { self.new.schedule
            ≡ with_key turn.hart.0 (turn.due + ticks_in setting.now self.old.guest turn.hart.0)
            (without_key turn.hart.0 self.old.schedule) }
        ensures selected { self.new.selected
            ≡ selected_of setting.now self.old.guest (turn.hart.0 ∷ []) }
        ensures starts { self.new.starts ≡ self.old.starts + length self.new.selected }
        ensures rest { self.new ≡ record self.old {
          schedule = self.new.schedule;
          selected = self.new.selected;
          starts = self.new.starts;
        } }
        ensures plain { result ≡ true
            → is_selected_in setting.now self.old.guest turn.hart.0 ≡ false }
        ensures soon { result ≡ true
            → turn.due + ticks_in setting.now self.old.guest turn.hart.0 ≤ last_moment }
    {
        let cost = cost_on(setting, &self.guest, turn.hart);
        let next = turn.due + cost.ticks;
        self.schedule.rekey_first(turn.hart, next);
        if cost.selected {
            self.selected.push(turn.hart);
            self.starts += 1;
            return false;
        }
        next <= LATEST
    }

    /// Retires instructions of a running hart whose turn it is, fewer than `most` of them quietly.
    /// None if each was quiet: then another hart has its turn, or this one again. Otherwise the
    /// last of them is completed as `retire` does.
    #[inline(always)]
    fn pass(
        &mut self,
        marked: &MarkedSetting,
        turn: Turn,
        most: u64,
        delay: Tick,
    ) -> Option<Retired>
        requires steady { IsSteady self.old }
        requires setting { IsSetting marked.now }
        requires machine { IsOnMachine marked.now self.old }
        requires usual { IsUsual self.old.guest.beside.timing }
        requires delay { delay ≤ 10 ^ 17 }
        requires turn { key_of self.old.schedule turn.hart.0 ≡ Some turn.due }
        requires first { IsLeast self.old.schedule turn.hart.0 }
        requires running { is_running self.old.guest turn.hart.0 ≡ true }
        requires some { 1 < most }
        requires few { most ≤ MAX_BUDGET }
        requires allows { AllowsQuiet marked.now self.old
            (pc_of self.old.guest turn.hart.0) most }
        ensures { MatchOption result (HasPassed marked.now self.old self.new)
            (λ retired. (retired.hart.0 ≡ turn.hart.0)
            × IsFarRetired marked.now self.old turn.hart.0 retired.fate delay self.new) }
    {
        let limit = limit_of(&self.schedule, turn.hart);
        self.started.clear();
        self.selected.clear();
        let stretch = self.guest.retire_far(
            turn.hart,
            turn.due,
            limit,
            most,
            marked.marks(),
            &mut self.started,
        );
        self.time = stretch.net;
        self.retired += stretch.quiet + 1;
        if let Some(next) = stretch.next {
            if next < LATEST {
                self.schedule.rekey_first(turn.hart, next);
                return None;
            }
        }
        self.complete(marked.setting(), turn.hart, stretch.fate);
        Some(Retired {
            hart: turn.hart,
            fate: stretch.fate,
        })
    }

    /// The most instructions that a hart may retire in a row: one if the machine is not the usual
    /// one, the hart may be at a point, or a limit is reached; and else as many as the budget
    /// leaves.
    #[inline(always)]
    fn most_from(&self, marked: &MarkedSetting, hart: HartId) -> u64
        requires setting { IsSetting marked.now }
        requires made { IsMade self.now.guest hart.0 }
        ensures some { 1 ≤ result }
        ensures few { result ≤ MAX_BUDGET }
        ensures usual { 1 < result → IsUsual self.now.guest.beside.timing }
        ensures allows { 1 < result
            → AllowsQuiet marked.now self.now (pc_of self.now.guest hart.0) result }
    {
        let choice = marked.choice();
        let may_stop = !self.guest.is_usual()
            || marked.may_visit(self.guest.pc(hart))
            || self.ends_with(&choice, Fate::Goes);
        if may_stop {
            1
        } else {
            choice.budget - self.retired
        }
    }

    /// Wakes a sleeping hart whose turn it is, and begins its next instruction.
    #[inline(never)]
    fn wake(&mut self, setting: &Setting, turn: Turn)
        requires steady { IsSteady self.old }
        requires speedup { setting.now.choice.speedup ≤ MAX_SPEEDUP }
        requires turn { key_of self.old.schedule turn.hart.0 ≡ Some turn.due }
        requires first { IsLeast self.old.schedule turn.hart.0 }
        requires asleep { is_sleeping self.old.guest turn.hart.0 ≡ true }
        ensures { IsWoken setting.now self.old turn.hart.0 turn.due self.new }
    {
        self.guest.wake(turn.hart);
        self.wakes += 1;
        self.selected.clear();
        begin_next(
            setting,
            &self.guest,
            &mut self.schedule,
            &mut self.selected,
            turn.hart,
            turn.due,
        );
        let begun = self.selected.harts().len() as u64;
        self.starts += begun;
    }

    /// Retires the instruction of a running hart whose turn it is. If the run goes on, the harts
    /// that this started begin. A visit is kept with the delay that is given, at a time that is
    /// later by it.
    #[inline(always)]
    fn retire(&mut self, setting: &Setting, turn: Turn, delay: Tick) -> Retired
        requires steady { IsSteady self.old }
        requires speedup { setting.now.choice.speedup ≤ MAX_SPEEDUP }
        requires delay { delay ≤ 10 ^ 17 }
        requires turn { key_of self.old.schedule turn.hart.0 ≡ Some turn.due }
        requires first { IsLeast self.old.schedule turn.hart.0 }
        requires running { is_running self.old.guest turn.hart.0 ≡ true }
        ensures retired { IsRetired setting.now self.old turn.hart.0 result.fate delay self.new }
        ensures hart { result.hart.0 ≡ turn.hart.0 }
    {
        let address = self.guest.pc(turn.hart);
        keep_visit(
            setting,
            &mut self.visits,
            address,
            turn.hart,
            turn.due + delay,
            delay,
        );
        self.started.clear();
        self.selected.clear();
        let fate = retire_due(&mut self.guest, turn, &mut self.started);
        self.time = turn.due;
        self.retired += 1;
        self.complete(setting, turn.hart, fate);
        Retired {
            hart: turn.hart,
            fate,
        }
    }

    /// Ends the run after a retirement of this fate, or begins the next instructions of the harts
    /// that the retirement started. A hart that goes on is the common case: its call has a
    /// constant fate, so the tests of the fate are removed.
    #[inline(always)]
    fn complete(&mut self, setting: &Setting, hart: HartId, fate: Fate)
        requires { CanComplete setting.now self.old hart.0 fate }
        ensures { IsCompleted setting.now self.old hart.0 fate self.new }
    {
        match fate {
            Fate::Goes => self.end_or_begin(setting, hart, Fate::Goes),
            other => self.end_or_begin_apart(setting, hart, other),
        }
    }

    /// `end_or_begin` of a hart that does not go on, apart from the common case.
    #[inline(never)]
    fn end_or_begin_apart(&mut self, setting: &Setting, hart: HartId, fate: Fate)
        requires { CanComplete setting.now self.old hart.0 fate }
        ensures { IsCompleted setting.now self.old hart.0 fate self.new }
    {
        self.end_or_begin(setting, hart, fate);
    }

    /// Ends the run with a retirement of this fate, or begins the harts that it started.
    #[inline(always)]
    fn end_or_begin(&mut self, setting: &Setting, hart: HartId, fate: Fate)
        requires { CanComplete setting.now self.old hart.0 fate }
        ensures { IsCompleted setting.now self.old hart.0 fate self.new }
    {
        reschedule(&mut self.schedule, hart, fate);
        if self.ends_with(&setting.choice, fate) {
            self.ending = self.ending_after(&setting.choice, fate);
            reschedule_ended(&mut self.schedule, hart, fate);
        } else {
            self.begin_started(setting, hart, fate);
        }
    }

    /// Makes this engine equal to another one whose guest was made with the same arguments.
    pub fn copy_from(&mut self, other: &Engine<'a>)
        requires guest { making self.old.guest ≡ making other.now.guest }
        requires visits { self.old.visits.limit ≡ other.now.visits.limit }
        requires harts { length self.old.schedule ≡ length other.now.schedule }
        ensures { self.new ≡ other.now }
    {
        self.guest.copy_from(&other.guest);
        self.schedule.copy_from(&other.schedule);
        self.started.copy_from(&other.started);
        self.selected.copy_from(&other.selected);
        self.visits.copy_from(&other.visits);
        self.time = other.time;
        self.retired = other.retired;
        self.wakes = other.wakes;
        self.starts = other.starts;
        self.ending = other.ending;
    }

    /// Sets the selected harts and the number of starts of an engine that has made no event,
    /// for the line that `setting` selects. Only hart 0 has begun an instruction there.
    pub fn count_first(&mut self, setting: &Setting)
        requires made { IsMade self.old.guest 0 }
        ensures { self.new ≡ record self.old {
          selected = selected_of setting.now self.old.guest (0 ∷ []);
          starts = length (selected_of setting.now self.old.guest (0 ∷ []));
        } }
    {
        self.selected.clear();
        let selected = self.guest.is_selected(FIRST, setting.choice.selected);
        add_if(selected, &mut self.selected, FIRST);
        self.starts = self.selected.harts().len() as u64;
    }

    /// The address of the next instruction of the hart that is due first.
    #[inline]
    pub fn address_due(&self) -> Address
        requires { IsSteady self.now }
        ensures { (hart : ℕ) → IsLeast self.now.schedule hart
            → result ≡ pc_of self.now.guest hart }
    {
        let turn = first_turn(&self.schedule);
        self.guest.pc(turn.hart)
    }

    /// When a hart retires or wakes, in net ticks; None if it neither runs nor sleeps.
    #[inline]
    pub fn due(&self, hart: HartId) -> Option<Tick>
        ensures { result ≡ key_of self.now.schedule hart.0 }
    {
        self.schedule.key(hart)
    }

    /// The harts that the last retirement made or woke, in order.
    #[inline]
    pub fn started(&self) -> &[HartId]
        ensures { map (λ hart. hart.0) result.now ≡ self.now.started }
    {
        self.started.harts()
    }

    /// The ending of the run, if it has ended.
    pub fn ending(&self) -> Option<Ending>
        ensures { result ≡ self.now.ending }
    {
        self.ending
    }

    /// When the last retirement was, in net ticks.
    pub fn time(&self) -> Tick
        ensures { result ≡ self.now.time }
    {
        self.time
    }

    /// The number of retired instructions.
    pub fn retired(&self) -> u64
        ensures { result ≡ self.now.retired }
    {
        self.retired
    }

    /// The number of selected instructions that were begun.
    pub fn starts(&self) -> u64
        ensures { result ≡ self.now.starts }
    {
        self.starts
    }

    /// The visits so far, at most 1,048,576, in order.
    pub fn visits(&self) -> &[Visit]
        ensures kept { result.now ≡ self.now.visits.kept }
        ensures few { length result.now ≤ MAX_VISITS }
        ensures harts { All (λ visit. visit.hart.0 < HARTS) result.now }
    {
        self.visits.all()
    }

    /// The output so far, at most 67,108,864 bytes.
    pub fn output(&self) -> &[u8]
        ensures bytes { result.now ≡ self.now.guest.guest.output }
        ensures few { length result.now ≤ MAX_OUTPUT }
    {
        self.guest.output()
    }

    /// Whether the run ends with a retirement of this fate. If the hart goes
    /// on, only the limits are looked at.
    #[inline(always)]
    fn ends_with(&self, choice: &Choice, fate: Fate) -> bool
        ensures { result ≡ is_some (ending_of fate
            (nat_le choice.now.output_limit (length self.now.guest.guest.output))
            (nat_le choice.now.visit_limit (length self.now.visits.kept))
            (runs_after fate self.now.started self.now.schedule)
            self.now.retired choice.now.budget) }
    {
        match fate {
            Fate::Goes => {
                choice.output_limit <= self.guest.output().len() as u64
                    || choice.visit_limit <= self.visits.all().len() as u64
                    || choice.budget <= self.retired
            }
            _ => self.ending_after(choice, fate).is_some(),
        }
    }

    /// The ending of the run with a retirement of this fate, if it ends.
    #[inline(never)]
    fn ending_after(&self, choice: &Choice, fate: Fate) -> Option<Ending>
        ensures { result ≡ ending_of fate
            (nat_le choice.now.output_limit (length self.now.guest.guest.output))
            (nat_le choice.now.visit_limit (length self.now.visits.kept))
            (runs_after fate self.now.started self.now.schedule)
            self.now.retired choice.now.budget }
    {
        let output_full = choice.output_limit <= self.guest.output().len() as u64;
        let visits_full = choice.visit_limit <= self.visits.all().len() as u64;
        let some_hart_runs = self.runs_after(fate);
        ending_after(
            fate,
            output_full,
            visits_full,
            some_hart_runs,
            self.retired,
            choice.budget,
        )
    }

    /// Whether some hart runs after a retirement of this fate.
    fn runs_after(&self, fate: Fate) -> bool
        ensures { result ≡ runs_after fate self.now.started self.now.schedule }
    {
        match fate {
            Fate::Goes => true,
            _ => has_any(&self.started) || has_due_any(&self.schedule),
        }
    }

    /// Begins the harts that a retirement of this fate started, at its moment.
    #[inline(always)]
    fn begin_started(&mut self, setting: &Setting, hart: HartId, fate: Fate)
        requires idle { AreIdle self.old.guest
            (if goes_on fate then without_key hart.0 self.old.schedule else self.old.schedule)
            (started_by hart.0 fate self.old.started) }
        requires moment { self.old.time ≤ last_moment }
        requires speedup { setting.now.choice.speedup ≤ MAX_SPEEDUP }
        requires room { length self.old.schedule ≡ HARTS }
        requires selected { self.old.selected ≡ [] }
        requires few { self.old.starts ≤ 2 ^ 62 }
        ensures begun { AreBegun (ticks_in setting.now self.old.guest) self.old.time
            (started_by hart.0 fate self.old.started)
            (if goes_on fate then without_key hart.0 self.old.schedule else self.old.schedule)
            self.new.schedule }
        ensures selected { self.new.selected
            ≡ selected_of setting.now self.old.guest (started_by hart.0 fate self.old.started) }
        ensures room { length self.new.schedule ≡ HARTS }
        ensures starts { self.new.starts ≡ self.old.starts + length self.new.selected }
        ensures few { length self.new.selected + many
            (if goes_on fate then without_key hart.0 self.old.schedule else self.old.schedule)
            ≤ many self.new.schedule }
        ensures rest { self.new ≡ record self.old {
          schedule = self.new.schedule;
          selected = self.new.selected;
          starts = self.new.starts;
        } }
    {
        begin_again(
            setting,
            &self.guest,
            &mut self.schedule,
            &mut self.selected,
            hart,
            fate,
            self.time,
        );
        begin_each(
            setting,
            &self.guest,
            &mut self.schedule,
            &mut self.selected,
            self.started.harts(),
            self.time,
        );
        self.starts += self.selected.harts().len() as u64;
    }
}
