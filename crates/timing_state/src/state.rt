//! The state of a machine of the timing model, beside its guest.
ghost use Rattle.std.specs.Prelude.{◌≡◌, ℕ, true, false, [], ◌+◌, ◌*◌, ◌<◌, ◌≤◌, ◌^◌, ◌&&◌, length, All, IfOk, IsTrue};
ghost use Rattle.coz_types.specs.declared.TheConstants.{HARTS};
ghost use Rattle.machines.specs.Places.{is_among};
ghost use Rattle.machines.specs.declared.Fate.TheVariants.{Goes};
ghost use Rattle.timing_laws.specs.Cores.{Turned};
ghost use Rattle.timing_laws.specs.Noted.{is_charged, note_of, notes_after};
ghost use Rattle.timing_model.specs.Timing.{IsTiming, charges};
ghost use Rattle.timing_state.specs.Held.{seats_of, turned};
ghost use Rattle.timing_state.specs.Notes.{notes_of};
ghost use Rattle.timing_steps.specs.State.{after_retirement, after_wake, first_state, is_over_at, keeps, number_of, turn_in, turn_on};
ghost use Rattle.timing_steps.specs.Ticks.{timed_cycles, timed_raise, timed_ticks};
ghost use Rattle.timing_steps.specs.declared.ticks.TheConstants.{MAX_TICKS};

use crate::notes::{FIRST_NOTE, note_of, note_retirement, pass};
use crate::seats::{can_start, copy_seats, first_seats};
use crate::turn::{Turn, turn_by};
use crate::{Jitter, Note, Places, Ready, Seats};
use coz_types::{HartId, LineId, Tick};
use guest_futex::HartList;
use machines::Fate;
use rv_decode::Instr;
use std::alloc::{AllocError, Global};
use std::marker::Model;
use timing_model::{Charge, MAX_CORES, Timing};
use timing_steps::{Instruction, Retirement, raise_of, ticks_of};

/// What a machine of the timing model keeps beside its guest.
///
/// Contracts see the timing, the notes of each hart and the seats. `new` alone can be out of
/// memory. On a machine with a core for each hart, no jitter and no charged lines `retire` and
/// `wake` change nothing, and return at once.
#[derive(Drop)]
pub struct TimingState {
    timing: Timing,
    // Whether the machine needs the notes and the seats.
    is_kept: bool,
    jitter: Jitter,
    notes: Places<Option<Note>>,
    seats: Seats,
}

impl Model for TimingState {
    ghost use Rattle.std.specs.Prelude.{◌≡◌};
    ghost use Rattle.timing_model.specs.Timing.{IsTiming};
    ghost use Rattle.timing_state.specs.Notes.{notes_of};
    ghost use Rattle.timing_state.specs.Held.{seats_of};
    ghost use Rattle.timing_steps.specs.State.{State, keeps};

    ghost Value = { State };

    ghost view = { λ s. record {
      timing = s.timing;
      notes = notes_of s.notes;
      seats = seats_of s.seats;
    } };

    ghost invariant = { λ s. IsTiming s.timing × (s.is_kept ≡ keeps s.timing)
        × (s.jitter ≡ s.timing.seed) };
}

/// Whether a machine needs notes and seats.
fn keeps(timing: Timing) -> bool
    ensures { result ≡ keeps timing }
{
    timing.cores < MAX_CORES || matches!(timing.charge, Charge::Last) || timing.seed != 0
}

/// Whether the slice of the hart that retires is over, or it gives its slice up.
#[inline(always)]
fn is_over(seats: &Seats, retirement: &Retirement) -> bool
    ensures { result ≡ is_over_at (seats_of seats.now) retirement.now.hart.0
        retirement.now.moment retirement.now.gives_up }
{
    seats.slice_ends.get(retirement.hart, 0) <= retirement.moment || retirement.gives_up
}

/// Whether nothing but the note of its hart changes with a retirement on `cores` cores, after
/// which the guest lets the hart go on and starts no other: its slice is not over, and nobody in
/// line has a free core.
#[inline(always)]
fn is_passing(seats: &Seats, cores: usize, retirement: &Retirement) -> bool
    requires goes { retirement.now.fate ≡ Goes }
    ensures turn { result ≡ true → (slice : ℕ) → turned seats.now Goes []
        ≡ turn_on cores slice retirement.now [] (seats_of seats.now) }
{
    !can_start(seats, cores) && !is_over(seats, retirement)
}

/// A retirement on a machine that needs notes and seats.
#[inline]
fn retire_in(
    timing: Timing,
    notes: &mut Places<Option<Note>>,
    seats: &mut Seats,
    retirement: &Retirement,
    others: &mut HartList,
) -> Fate
    requires timing { IsTiming timing }
    requires low { retirement.now.hart.0 < HARTS }
    requires moment { retirement.now.moment < 2 ^ 63 }
    requires count { (note_of (notes_of notes.old) retirement.now.hart.0).count + 1 < 2 ^ 64 }
    requires others { All (λ hart. hart < HARTS) others.old }
    requires room { length seats.old.ready + length others.old < HARTS }
    ensures notes { notes_of notes.new ≡ notes_after (number_of retirement.now.line)
        retirement.now.hart.0 others.old (notes_of notes.old) }
    ensures turn { turned seats.new result others.new
        ≡ turn_on timing.cores timing.slice retirement.now others.old (seats_of seats.old) }
{
    let hart = retirement.hart;
    note_retirement(notes, hart, retirement.line, others);
    let turn = Turn {
        cores: usize::from(timing.cores),
        slice_end: retirement.moment + 100 * timing.slice,
        hart,
        is_over: is_over(seats, retirement),
    };
    turn_by(seats, turn, retirement.fate, others)
}

impl TimingState {
    /// Returns the state of a machine at the start of a run. Fails only if out of memory.
    pub fn new(alloc: Global, timing: Timing) -> Result<TimingState, AllocError>
        requires { IsTiming timing }
        ensures { IfOk result (λ state. state ≡ first_state timing) }
    {
        Ok(TimingState {
            timing,
            is_kept: keeps(timing),
            jitter: Jitter::new(alloc, timing.seed)?,
            notes: Places::new(alloc, Some(FIRST_NOTE))?,
            seats: first_seats(alloc, 100 * timing.slice)?,
        })
    }

    /// The machine.
    #[inline]
    pub fn timing(&self) -> Timing
        ensures { result ≡ self.now.timing }
    {
        self.timing
    }

    /// A hart retires, and the guest made or woke these others. Returns what becomes of the hart
    /// on the cores; the others are then the harts that start.
    #[inline]
    pub fn retire(&mut self, retirement: &Retirement, others: &mut HartList) -> Fate
        requires low { retirement.now.hart.0 < HARTS }
        requires moment { retirement.now.moment < 2 ^ 63 }
        requires count { (note_of self.old.notes retirement.now.hart.0).count + 1 < 2 ^ 64 }
        requires others { All (λ hart. hart < HARTS) others.old }
        requires room { length self.old.seats.ready + length others.old < HARTS }
        ensures state { self.new ≡ after_retirement self.old retirement.now others.old }
        ensures fate { result ≡ (turn_in self.old retirement.now others.old).fate }
        ensures others { others.new ≡ (turn_in self.old retirement.now others.old).others }
    {
        let is_kept = self.is_kept;
        if is_kept {
            return retire_in(
                self.timing,
                &mut self.notes,
                &mut self.seats,
                retirement,
                others,
            );
        }
        retirement.fate
    }

    /// A hart retires that goes on by its guest, which made or woke no other. True if it goes on on
    /// the cores too and nobody starts, which changes nothing but its note. False if this is a case
    /// for `retire`: then nothing changes.
    #[inline(always)]
    pub fn pass(&mut self, retirement: &Retirement) -> bool
        requires goes { retirement.now.fate ≡ Goes }
        requires low { retirement.now.hart.0 < HARTS }
        requires count { (note_of self.old.notes retirement.now.hart.0).count + 1 < 2 ^ 64 }
        ensures state { result ≡ true → self.new ≡ after_retirement self.old retirement.now [] }
        ensures fate { result ≡ true → (turn_in self.old retirement.now []).fate ≡ Goes }
        ensures others { result ≡ true → (turn_in self.old retirement.now []).others ≡ [] }
        ensures same { result ≡ false → self.new ≡ self.old }
    {
        let is_kept = self.is_kept;
        if !is_kept {
            return true;
        }
        let is_passing = is_passing(&self.seats, usize::from(self.timing.cores), retirement);
        if is_passing {
            pass(&mut self.notes, retirement.hart, retirement.line);
        }
        is_passing
    }

    /// A sleeping hart is woken: it has a core at once.
    pub fn wake(&mut self)
        requires { self.old.seats.on < 2 ^ 63 }
        ensures { self.new ≡ after_wake self.old }
    {
        if self.is_kept {
            self.seats.on += 1;
        }
    }

    /// How many harts have a core. A machine that needs no seats does not count them.
    pub fn on_cores(&self) -> u64
        ensures { result ≡ self.now.seats.on }
    {
        self.seats.on as u64
    }

    /// Whether a hart stands in line for a core.
    #[inline]
    pub fn is_in_line(&self, hart: HartId) -> bool
        ensures { result ≡ is_among hart.0 self.now.seats.ready }
    {
        self.seats.ready.contains(hart)
    }

    /// How many instructions a hart has retired.
    #[inline(always)]
    pub fn count(&self, hart: HartId) -> u64
        ensures { result ≡ (note_of self.now.notes hart.0).count }
    {
        note_of(&self.notes, hart).count
    }

    /// The line of the last instruction with a line that a hart has retired, or that its maker had
    /// retired when it was made. A machine that keeps nothing notes none.
    #[inline(always)]
    pub fn last_line(&self, hart: HartId) -> Option<LineId>
        ensures { number_of result ≡ (note_of self.now.notes hart.0).last }
    {
        note_of(&self.notes, hart).last
    }

    /// Whether an instruction of this line is charged to the selected line: it has none, and its
    /// hart's last line is the selected one.
    #[inline]
    pub fn is_charged(&self, hart: HartId, line: Option<LineId>, selected: Option<LineId>) -> bool
        ensures { result ≡ charges self.now.timing.charge && is_charged (number_of line)
            (note_of self.now.notes hart.0).last (number_of selected) }
    {
        if matches!(self.timing.charge, Charge::Nobody) || line.is_some() {
            return false;
        }
        match (note_of(&self.notes, hart).last, selected) {
            (Some(last), Some(selected)) => last.0 == selected.0,
            _ => false,
        }
    }

    /// A hart's next instruction.
    #[inline(always)]
    fn next(&self, hart: HartId, instr: Option<Instr>) -> Instruction
        ensures { result ≡ record {
          hart = hart;
          count = (note_of self.now.notes hart.0).count;
          instr = instr;
        } }
    {
        Instruction {
            hart,
            count: self.count(hart),
            instr,
        }
    }

    /// The cycles of a hart's next instruction.
    #[inline(always)]
    pub fn cycles(&self, hart: HartId, instr: Option<Instr>) -> u64
        ensures cycles { result ≡ timed_cycles self.now.timing.costs self.now.timing.seed hart.0
            (note_of self.now.notes hart.0).count instr }
        ensures few { result ≤ 20000 }
    {
        let cycles = self.timing.costs.cycles(instr);
        if self.jitter.is_doubled(hart, self.count(hart)) {
            2 * cycles
        } else {
            cycles
        }
    }

    /// The ticks of a hart's next instruction, which is selected or not; the speedup is in per
    /// cent.
    #[inline]
    pub fn ticks(&self, hart: HartId, instr: Option<Instr>, selected: bool, speedup: u8) -> Tick
        requires { speedup ≤ 100 }
        ensures ticks { result ≡ timed_ticks (timed_cycles self.now.timing.costs
            self.now.timing.seed hart.0 (note_of self.now.notes hart.0).count instr)
            selected speedup }
        ensures few { result ≤ MAX_TICKS }
    {
        let next = self.next(hart, instr);
        ticks_of(
            self.timing.costs,
            self.timing.seed,
            &next,
            selected,
            speedup,
        )
    }

    /// The ticks by which a hart's next instruction raises the delay; the speedup is in per cent.
    #[inline]
    pub fn raise(&self, hart: HartId, instr: Option<Instr>, selected: bool, speedup: u8) -> Tick
        requires { speedup ≤ 100 }
        ensures ticks { result ≡ timed_raise (timed_cycles self.now.timing.costs
            self.now.timing.seed hart.0 (note_of self.now.notes hart.0).count instr)
            selected speedup }
        ensures few { result ≤ MAX_TICKS }
    {
        let next = self.next(hart, instr);
        raise_of(
            self.timing.costs,
            self.timing.seed,
            &next,
            selected,
            speedup,
        )
    }

    /// Makes this state equal to another one.
    pub fn copy_from(&mut self, other: &TimingState)
        ensures { self.new ≡ other.now }
    {
        self.timing = other.timing;
        self.is_kept = other.is_kept;
        self.jitter.copy_from(&other.jitter);
        self.notes.copy_from(&other.notes);
        copy_seats(&mut self.seats, &other.seats);
    }

    /// The harts that stand in line for a core, the eldest first. On a machine that needs no seats
    /// nobody does.
    #[inline]
    pub fn ready(&self) -> &Ready
        ensures { result.now ≡ self.now.seats.ready }
    {
        &self.seats.ready
    }
}
