//! The guest on a machine.
ghost use Rattle.std.specs.Prelude.{◌≡◌, ◌+◌, ◌≤◌, ◌<◌, ◌^◌, ◌↔◌, ℕ, true, false, [], length, Option, Some, All, IfOk, IfSome, IsTrue};
ghost use Rattle.coz_types.specs.declared.TheConstants.{HARTS, MAX_OUTPUT};
ghost use Rattle.cost_table.specs.Costs.{cycles_of};
ghost use Rattle.guest_calls.specs.Calls.{retirement as own_retirement};
ghost use Rattle.guest_calls.specs.Quiet.{after_steps, moment_after, IsQuietStep, GoesOnAt};
ghost use Rattle.guest_calls.specs.Retire.{retire as own_retire};
ghost use Rattle.guest_memory.specs.Regions.{IsLayout};
ghost use Rattle.line_index.specs.Keys.{is_at};
ghost use Rattle.machines.specs.declared.Fate.TheVariants.{Goes};
ghost use Rattle.rv_decode.specs.declared.Instr.{Instr};
ghost use Rattle.timing_laws.specs.Noted.{note_of};
ghost use Rattle.timing_model.specs.Timing.{IsTiming, IsUsual, cycles_in};
ghost use Rattle.timing_steps.specs.State.{after_retirement, number_of, turn_in};
ghost use Rattle.timed_guest.specs.Guest.{IsMade, first_guest, is_running, is_sleeping, making, pc_of, with_wake};
ghost use Rattle.timed_guest.specs.Retire.{cycles_of_next, gives_up, is_selected_by, line_charged, line_counted, line_noted, next_of, past_of, retire, retirement};

use crate::lines::Lines;
use code_words::Marks;
use coz_types::{Address, HartId, Image, LineId, Tick};
use guest_calls::{Fate, Guest, Stretch};
use guest_futex::HartList;
use guest_memory::Layout;
use line_index::LineIndex;
use rv_decode::Instr;
use std::alloc::{AllocError, Global};
use std::marker::Model;
use timing_model::{Charge, Costs, MAX_CORES, Timing};
use timing_state::{Ready, TimingState};
use timing_steps::Retirement;

/// The number of the call sched_yield (Linux on riscv64), by which a hart gives its slice up.
const SCHED_YIELD: u64 = 124;

/// Whether these are the costs of `cost_table`, instruction by instruction.
fn are_usual(costs: Costs) -> bool
    ensures { IsTrue result ↔ ((i : Option Instr) → cycles_in costs i ≡ cycles_of i) }
{
    costs == Costs::usual()
}

/// Whether a machine is the usual one: it has a core for each hart, the costs of `cost_table`,
/// no jitter and no charged lines.
fn is_usual(timing: Timing) -> bool
    ensures { IsTrue result ↔ IsUsual timing }
{
    MAX_CORES <= timing.cores
        && matches!(timing.charge, Charge::Nobody)
        && timing.seed == 0
        && are_usual(timing.costs)
}

/// Whether a hart goes on by its guest, and no other starts.
#[inline(always)]
fn goes_alone(fate: Fate, started: &HartList) -> bool
    ensures fate { result ≡ true → fate ≡ Goes }
    ensures started { result ≡ true → started.now ≡ [] }
{
    match fate {
        Fate::Goes => started.harts().is_empty(),
        _ => false,
    }
}

/// A retirement on the machine in the common case: the hart goes on, no other starts, and nothing
/// but its note changes. False in each other case: then nothing changes.
#[inline(always)]
fn pass(
    state: &mut TimingState,
    hart: HartId,
    moment: Tick,
    line: Option<LineId>,
    gives_up: bool,
    own: Fate,
    started: &HartList,
) -> bool
    requires low { hart.0 < HARTS }
    requires count { (note_of state.old.notes hart.0).count + 1 < 2 ^ 64 }
    ensures state { result ≡ true → state.new
        ≡ after_retirement state.old (past_of hart moment line gives_up own) started.now }
    ensures fate { result ≡ true →
        (turn_in state.old (past_of hart moment line gives_up own) started.now).fate ≡ Goes }
    ensures others { result ≡ true →
        (turn_in state.old (past_of hart moment line gives_up own) started.now).others ≡ [] }
    ensures none { result ≡ true → started.now ≡ [] }
    ensures same { result ≡ false → state.new ≡ state.old }
{
    if goes_alone(own, started) {
        let past = Retirement {
            hart,
            moment,
            line,
            gives_up,
            fate: Fate::Goes,
        };
        return state.pass(&past);
    }
    false
}

/// What a retirement comes to on the machine, apart from the common case. `fate` is at first what
/// became of the hart by its guest.
#[inline(never)]
fn turn(
    state: &mut TimingState,
    hart: HartId,
    moment: Tick,
    line: Option<LineId>,
    gives_up: bool,
    fate: &mut Fate,
    started: &mut HartList,
)
    requires low { hart.0 < HARTS }
    requires moment { moment < 2 ^ 63 }
    requires count { (note_of state.old.notes hart.0).count + 1 < 2 ^ 64 }
    requires others { All (λ hart. hart < HARTS) started.old }
    requires room { length state.old.seats.ready + length started.old < HARTS }
    ensures state { state.new
        ≡ after_retirement state.old (past_of hart moment line gives_up fate.old) started.old }
    ensures fate { fate.new
        ≡ (turn_in state.old (past_of hart moment line gives_up fate.old) started.old).fate }
    ensures others { started.new
        ≡ (turn_in state.old (past_of hart moment line gives_up fate.old) started.old).others }
{
    let past = Retirement {
        hart,
        moment,
        line,
        gives_up,
        fate: *fate,
    };
    *fate = state.retire(&past, started);
}

/// A guest on a machine of the timing model. All its room is taken when it is made.
///
/// Contracts see the guest, what the machine keeps beside it, and the lines of its addresses.
#[derive(Drop)]
pub struct TimedGuest<'a> {
    guest: Guest<'a>,
    state: TimingState,
    lines: Lines<'a>,
    is_usual: bool,
}

impl<'a> Model for TimedGuest<'a> {
    ghost use Rattle.std.specs.Prelude.{◌↔◌, IsTrue};
    ghost use Rattle.timing_model.specs.Timing.{IsUsual};
    ghost use Rattle.timed_guest.specs.Guest.{Timed};
    ghost use Rattle.timed_guest.specs.Orderly.{IsOrderly};

    ghost Value = { Timed };

    ghost view = { λ g. record {
      guest = g.guest;
      beside = g.state;
      index = g.lines;
    } };

    ghost invariant = { λ g. (IsTrue g.is_usual ↔ IsUsual g.state.timing)
        × IsOrderly (record {
          guest = g.guest;
          beside = g.state;
          index = g.lines;
        }) };
}

impl<'a> TimedGuest<'a> {
    /// The guest that begins to run an image on a machine, with its first hart at the entry and
    /// on a core. The output's limit is from 1 to 67,108,864 bytes; the index has the lines of
    /// the image.
    pub fn new(
        alloc: Global,
        image: &'a Image<'a>,
        input: &'a [u8],
        output_limit: u64,
        layout: Layout,
        index: &'a LineIndex,
        timing: Timing,
    ) -> Result<TimedGuest<'a>, AllocError>
        requires some_output { 1 ≤ output_limit }
        requires output { output_limit ≤ MAX_OUTPUT }
        requires layout { IsLayout layout }
        requires timing { IsTiming timing }
        ensures { IfOk result (λ guest. guest ≡ first_guest image.now input.now output_limit
            layout timing index.now) }
    {
        let state = TimingState::new(alloc, timing)?;
        let is_usual = is_usual(timing);
        let lines = Lines::new(alloc, image, index, !is_usual)?;
        let guest = Guest::new(alloc, image, input, output_limit, layout)?;
        Ok(TimedGuest {
            guest,
            state,
            lines,
            is_usual,
        })
    }

    /// The machine.
    pub fn timing(&self) -> Timing
        ensures { result ≡ self.now.beside.timing }
    {
        self.state.timing()
    }

    /// Whether the machine is the usual one, on which all is as it is for the guest alone.
    #[inline(always)]
    pub fn is_usual(&self) -> bool
        ensures { IsTrue result ↔ IsUsual self.now.beside.timing }
    {
        self.is_usual
    }

    /// The next instruction of a hart that was made, or none if it can't be fetched
    /// or is not supported.
    pub fn next(&self, hart: HartId) -> Option<Instr>
        requires { IsMade self.now hart.0 }
        ensures { result ≡ next_of self.now hart.0 }
    {
        self.guest.next(hart)
    }

    /// The cycles of the next instruction of a hart that was made.
    #[inline(always)]
    pub fn next_cycles(&self, hart: HartId) -> u64
        requires { IsMade self.now hart.0 }
        ensures cycles { result ≡ cycles_of_next self.now hart.0 }
        ensures few { result ≤ 20000 }
    {
        if self.is_usual {
            self.guest.next_cycles(hart)
        } else {
            self.cycles_timed(hart)
        }
    }

    /// `next_cycles` on another machine than the usual one.
    #[inline(never)]
    fn cycles_timed(&self, hart: HartId) -> u64
        requires { IsMade self.now hart.0 }
        ensures cycles { result ≡ cycles_of_next self.now hart.0 }
        ensures few { result ≤ 20000 }
    {
        self.cycles_on(hart)
    }

    /// `next_cycles`, without asking whether the machine is the usual one.
    #[inline(always)]
    pub fn cycles_on(&self, hart: HartId) -> u64
        requires { IsMade self.now hart.0 }
        ensures cycles { result ≡ cycles_of_next self.now hart.0 }
        ensures few { result ≤ 20000 }
    {
        self.state.cycles(hart, self.guest.next(hart))
    }

    /// The address of the next instruction of a hart that was made.
    #[inline]
    pub fn pc(&self, hart: HartId) -> Address
        requires { IsMade self.now hart.0 }
        ensures { result ≡ pc_of self.now hart.0 }
    {
        self.guest.pc(hart)
    }

    /// Whether the next instruction of a hart that was made has the selected line, or is charged
    /// to it.
    #[inline(always)]
    pub fn is_selected(&self, hart: HartId, selected: Option<LineId>) -> bool
        requires { IsMade self.now hart.0 }
        ensures { result ≡ is_selected_by (number_of selected) self.now hart.0 }
    {
        match selected {
            Some(line) => {
                if self.is_usual {
                    self.lines.has_line(line, self.pc(hart))
                } else {
                    self.counts_for(hart, line)
                }
            }
            None => false,
        }
    }

    /// `is_selected`, without asking whether the machine is the usual one.
    #[inline(always)]
    pub fn is_selected_on(&self, hart: HartId, selected: Option<LineId>) -> bool
        requires { IsMade self.now hart.0 }
        ensures { result ≡ is_selected_by (number_of selected) self.now hart.0 }
    {
        match selected {
            Some(line) => self.has_line(hart, line),
            None => false,
        }
    }

    /// The line that the next instruction of a hart that was made counts for: its own, or if it has
    /// none and the machine charges such code the hart's last line. It is the one line that, if
    /// selected, has the instruction selected.
    #[inline(always)]
    pub fn line_of(&self, hart: HartId) -> Option<LineId>
        requires { IsMade self.now hart.0 }
        ensures line { number_of result ≡ line_counted self.now hart.0 }
        ensures selected { (selected : ℕ) → is_selected_by (Some selected) self.now hart.0
            ≡ is_at selected (number_of result) }
    {
        match self.lines.line_of(self.pc(hart)) {
            Some(line) => Some(line),
            None => self.line_charged(hart),
        }
    }

    /// The number of harts that were made.
    pub fn harts(&self) -> u32
        ensures { result ≡ length self.now.guest.harts }
    {
        self.guest.harts()
    }

    /// The bytes that were written so far.
    pub fn output(&self) -> &[u8]
        ensures bytes { result.now ≡ self.now.guest.output }
        ensures few { length result.now ≤ MAX_OUTPUT }
    {
        self.guest.output()
    }

    /// Retires the next instruction of a running hart, at a net time. `started` gets the harts
    /// that start, in order: those that it makes or wakes, or on a machine with fewer cores the
    /// first in line.
    #[inline(always)]
    pub fn retire(&mut self, hart: HartId, net: Tick, started: &mut HartList) -> Fate
        requires running { IsTrue (is_running self.old hart.0) }
        requires started { started.old ≡ [] }
        requires net { net < 2 ^ 62 }
        requires count { (note_of self.old.beside.notes hart.0).count < 2 ^ 62 }
        ensures effect { retirement self.new result started.new ≡ retire self.old hart.0 net }
        ensures made { making self.new ≡ making self.old }
    {
        if self.is_usual {
            self.guest.retire(hart, net, started)
        } else {
            self.retire_timed(hart, net, started)
        }
    }

    /// Retires instructions of a running hart on a usual machine, the first of them at a net
    /// time, and at least one. It goes on only to an instruction that has no mark and is due
    /// before `limit`, and only while it retired fewer than `most`. What the last one did is what
    /// the guest alone says of it.
    #[inline(always)]
    pub fn retire_far(
        &mut self,
        hart: HartId,
        net: Tick,
        limit: Tick,
        most: u64,
        marks: &Marks,
        started: &mut HartList,
    ) -> Stretch
        requires usual { IsUsual self.old.beside.timing }
        requires running { IsTrue (is_running self.old hart.0) }
        requires started { started.old ≡ [] }
        requires some { 1 ≤ most }
        requires net { net ≤ 2 ^ 62 }
        requires limit { limit ≤ 2 ^ 62 }
        ensures quiet { (i : ℕ) → i < result.quiet →
            IsQuietStep marks.now limit (after_steps i self.old.guest hart.0) hart.0
            (moment_after i self.old.guest hart.0 net) }
        ensures few { result.quiet < most }
        ensures net { result.net ≡ moment_after result.quiet self.old.guest hart.0 net }
        ensures next { IfSome result.next (λ next. (result.quiet + 1 < most)
            × GoesOnAt marks.now (after_steps result.quiet self.old.guest hart.0) hart.0
            result.net next) }
        ensures effect { own_retirement self.new.guest result.fate started.new
            ≡ own_retire (after_steps result.quiet self.old.guest hart.0) hart.0 result.net }
        ensures rest { self.new ≡ record self.old { guest = self.new.guest } }
        ensures made { making self.new ≡ making self.old }
    {
        // The invariant of `self` is known to a proof once a field is used.
        let _ = &self.is_usual;
        self.guest
            .retire_far(hart, net, limit, most, marks, started)
    }

    /// Makes a sleeping hart running. It has a core at once.
    pub fn wake(&mut self, hart: HartId)
        requires asleep { IsTrue (is_sleeping self.old hart.0) }
        requires few { self.old.beside.seats.on < 2 ^ 62 }
        ensures { self.new ≡ with_wake hart.0 self.old }
    {
        // The invariant of `self` is known to a proof once a field is used.
        let _ = &self.is_usual;
        self.guest.wake(hart);
        self.state.wake();
    }

    /// How many instructions a hart has retired. A machine that keeps nothing does not count them.
    pub fn count(&self, hart: HartId) -> u64
        ensures { result ≡ (note_of self.now.beside.notes hart.0).count }
    {
        self.state.count(hart)
    }

    /// How many harts have a core. A machine that keeps nothing does not count them.
    pub fn on_cores(&self) -> u64
        ensures { result ≡ self.now.beside.seats.on }
    {
        self.state.on_cores()
    }

    /// Whether a hart that was made runs, and has a core.
    #[inline]
    pub fn is_running(&self, hart: HartId) -> bool
        requires { IsMade self.now hart.0 }
        ensures { result ≡ is_running self.now hart.0 }
    {
        self.guest.is_running(hart) && !self.state.is_in_line(hart)
    }

    /// Whether a hart that was made sleeps.
    #[inline]
    pub fn is_sleeping(&self, hart: HartId) -> bool
        requires { IsMade self.now hart.0 }
        ensures { result ≡ is_sleeping self.now hart.0 }
    {
        self.guest.is_sleeping(hart) && !self.state.is_in_line(hart)
    }

    /// Makes this guest equal to another one that was made with the same image, layout, input,
    /// output limit, lines and machine.
    pub fn copy_from(&mut self, other: &TimedGuest<'a>)
        requires { making self.old ≡ making other.now }
        ensures { self.new ≡ other.now }
    {
        self.guest.copy_from(&other.guest);
        self.state.copy_from(&other.state);
        self.lines.copy_from(&other.lines);
        self.is_usual = other.is_usual;
    }

    /// The line of a hart's next instruction, as it is noted: none on a machine that charges none.
    #[inline(always)]
    fn line_noted(&self, hart: HartId) -> Option<LineId>
        requires { IsMade self.now hart.0 }
        ensures { result ≡ line_noted self.now hart.0 }
    {
        match self.state.timing().charge {
            Charge::Last => self.lines.line_of(self.guest.pc(hart)),
            Charge::Nobody => None,
        }
    }

    /// The line that code without a line is charged to as a hart runs it: none on a machine that
    /// charges none.
    #[inline(always)]
    fn line_charged(&self, hart: HartId) -> Option<LineId>
        ensures { number_of result ≡ line_charged self.now hart.0 }
    {
        match self.state.timing().charge {
            Charge::Last => self.state.last_line(hart),
            Charge::Nobody => None,
        }
    }

    /// `has_line`, apart from the common case.
    #[inline(never)]
    fn counts_for(&self, hart: HartId, line: LineId) -> bool
        requires { IsMade self.now hart.0 }
        ensures { result ≡ is_selected_by (Some line.0) self.now hart.0 }
    {
        self.has_line(hart, line)
    }

    /// Whether a hart's next instruction counts for a line.
    #[inline(always)]
    fn has_line(&self, hart: HartId, line: LineId) -> bool
        requires { IsMade self.now hart.0 }
        ensures { result ≡ is_selected_by (Some line.0) self.now hart.0 }
    {
        match self.lines.line_of(self.pc(hart)) {
            Some(own) => own.0 == line.0,
            None => self.is_charged(hart, line),
        }
    }

    /// Whether code without a line is charged to this one as a hart runs it.
    #[inline(always)]
    fn is_charged(&self, hart: HartId, line: LineId) -> bool
        ensures { result ≡ is_at line.0 (line_charged self.now hart.0) }
    {
        match self.line_charged(hart) {
            Some(own) => own.0 == line.0,
            None => false,
        }
    }

    /// Whether a hart's next instruction gives its slice up.
    #[inline]
    fn gives_up(&self, hart: HartId) -> bool
        requires { IsMade self.now hart.0 }
        ensures { result ≡ gives_up self.now.guest hart.0 }
    {
        self.guest.number(hart) == SCHED_YIELD
            && matches!(self.guest.next(hart), Some(Instr::Ecall))
    }

    /// Retires as `retire` does on another machine than the usual one.
    #[inline(never)]
    fn retire_timed(&mut self, hart: HartId, net: Tick, started: &mut HartList) -> Fate
        requires running { IsTrue (is_running self.old hart.0) }
        requires started { started.old ≡ [] }
        requires net { net < 2 ^ 62 }
        requires count { (note_of self.old.beside.notes hart.0).count < 2 ^ 62 }
        ensures effect { retirement self.new result started.new ≡ retire self.old hart.0 net }
        ensures made { making self.new ≡ making self.old }
    {
        // The invariant of `self` is known to a proof once a field is used.
        let _ = &self.is_usual;
        let mut fate = Fate::Goes;
        if self.retire_on(hart, net, started, &mut fate) {
            return Fate::Goes;
        }
        fate
    }

    /// Retires as `retire` does, without asking whether the machine is the usual one. True in the
    /// common case: the hart goes on, and no other starts. Otherwise `fate` gets its fate.
    #[inline(always)]
    pub fn retire_on(
        &mut self,
        hart: HartId,
        net: Tick,
        started: &mut HartList,
        fate: &mut Fate,
    ) -> bool
        requires running { IsTrue (is_running self.old hart.0) }
        requires started { started.old ≡ [] }
        requires net { net < 2 ^ 62 }
        requires count { (note_of self.old.beside.notes hart.0).count < 2 ^ 62 }
        ensures alone { result ≡ true → retirement self.new Goes [] ≡ retire self.old hart.0 net }
        ensures none { result ≡ true → started.new ≡ [] }
        ensures effect { result ≡ false
            → retirement self.new fate.new started.new ≡ retire self.old hart.0 net }
        ensures made { making self.new ≡ making self.old }
    {
        let line = self.line_noted(hart);
        let gives_up = self.gives_up(hart);
        let own = self.guest.retire(hart, net, started);
        let has_passed = pass(&mut self.state, hart, net, line, gives_up, own, started);
        if has_passed {
            return true;
        }
        *fate = own;
        turn(&mut self.state, hart, net, line, gives_up, fate, started);
        false
    }

    /// The harts that stand in line for a core, the eldest first.
    #[inline]
    pub fn ready(&self) -> &Ready
        ensures { result.now ≡ self.now.beside.seats.ready }
    {
        self.state.ready()
    }
}
