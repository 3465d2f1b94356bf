//! What a retirement comes to on cores.
ghost use Rattle.std.specs.Prelude.{◌≡◌, ◌+◌, ◌-◌, ◌<◌, ◌≤◌, length, All};
ghost use Rattle.coz_types.specs.declared.TheConstants.{HARTS};
ghost use Rattle.machines.specs.declared.Fate.TheVariants.{Goes, Sleeps, Waits};
ghost use Rattle.timing_laws.specs.Cores.{fill, freed, in_line, is_free, sliced, starting, turned_by, unsliced};
ghost use Rattle.timing_state.specs.Held.{seats_of, turned};

use crate::Seats;
use crate::seats::{fill, shift};
use coz_types::{HartId, Tick};
use guest_futex::HartList;
use machines::Fate;

/// A retirement on cores.
#[derive(Clone, Copy)]
pub(crate) struct Turn {
    /// How many cores there are.
    pub(crate) cores: usize,
    /// The end of a slice that begins now (ticks).
    pub(crate) slice_end: Tick,
    /// The hart that retires.
    pub(crate) hart: HartId,
    /// Its slice is over, or it gives its slice up.
    pub(crate) is_over: bool,
}

/// A hart leaves its core.
#[inline]
fn leave(seats: &mut Seats)
    ensures { seats_of seats.new
        ≡ record (seats_of seats.old) { on = (seats_of seats.old).on - 1 } }
{
    seats.on = seats.on.saturating_sub(1);
}

/// Whether nobody waits for the core of a hart that goes on.
#[inline]
fn is_free(seats: &Seats, cores: usize) -> bool
    ensures { result ≡ is_free cores (seats_of seats.now) }
{
    seats.ready.is_empty() && seats.on <= cores
}

/// A hart whose slice is over goes on if nobody waits for its core, and else stands in line.
#[inline(never)]
fn end_slice(seats: &mut Seats, turn: Turn, first: &mut HartList) -> Fate
    requires few { turn.cores ≤ HARTS }
    requires low { turn.hart.0 < HARTS }
    requires room { length first.old + length seats.old.ready < HARTS }
    ensures { turned seats.new result first.new
        ≡ sliced turn.cores turn.slice_end turn.hart.0 first.old (seats_of seats.old) }
{
    if is_free(seats, turn.cores) {
        seats.slice_ends.put(turn.hart, turn.slice_end, 0);
        return Fate::Goes;
    }
    seats.ready.push(turn.hart);
    leave(seats);
    fill(seats, turn.cores, turn.slice_end, first);
    Fate::Waits
}

/// A hart that goes on by its guest: the others stand in line, and its slice may be over.
#[inline(always)]
fn go_on(seats: &mut Seats, turn: Turn, others: &mut HartList) -> Fate
    requires few { turn.cores ≤ HARTS }
    requires low { turn.hart.0 < HARTS }
    requires others { All (λ hart. hart < HARTS) others.old }
    requires room { length seats.old.ready + length others.old < HARTS }
    ensures { turned seats.new result others.new ≡ turned_by turn.cores turn.slice_end
        turn.hart.0 turn.is_over others.old Goes (seats_of seats.old) }
{
    let is_over = turn.is_over;
    shift(seats, turn.cores, turn.slice_end, others);
    if is_over {
        return end_slice(seats, turn, others);
    }
    Fate::Goes
}

/// A hart that waits or leaves by its guest: its core is free.
#[inline(never)]
fn stop(seats: &mut Seats, turn: Turn, fate: Fate, others: &mut HartList) -> Fate
    requires few { turn.cores ≤ HARTS }
    requires others { All (λ hart. hart < HARTS) others.old }
    requires room { length seats.old.ready + length others.old < HARTS }
    ensures { turned seats.new result others.new ≡ unsliced fate
        (starting turn.cores (in_line others.old (freed Waits turn.hart.0 (seats_of seats.old))))
        (fill turn.cores turn.slice_end
        (in_line others.old (freed Waits turn.hart.0 (seats_of seats.old)))) }
{
    leave(seats);
    shift(seats, turn.cores, turn.slice_end, others);
    fate
}

/// A hart that sleeps by its guest: its core is free, and its slice ends with its sleep.
#[inline(never)]
fn sleep(seats: &mut Seats, turn: Turn, moment: Tick, others: &mut HartList) -> Fate
    requires few { turn.cores ≤ HARTS }
    requires low { turn.hart.0 < HARTS }
    requires others { All (λ hart. hart < HARTS) others.old }
    requires room { length seats.old.ready + length others.old < HARTS }
    ensures { turned seats.new result others.new ≡ turned_by turn.cores turn.slice_end
        turn.hart.0 turn.is_over others.old (Sleeps moment) (seats_of seats.old) }
{
    seats.slice_ends.put(turn.hart, moment, 0);
    leave(seats);
    shift(seats, turn.cores, turn.slice_end, others);
    Fate::Sleeps(moment)
}

/// The fate of a hart on cores, by the fate that its guest gives it. `others` are the harts that
/// the guest made or woke, and then those that start.
#[inline]
pub(crate) fn turn_by(seats: &mut Seats, turn: Turn, fate: Fate, others: &mut HartList) -> Fate
    requires few { turn.cores ≤ HARTS }
    requires low { turn.hart.0 < HARTS }
    requires others { All (λ hart. hart < HARTS) others.old }
    requires room { length seats.old.ready + length others.old < HARTS }
    ensures { turned seats.new result others.new ≡ turned_by turn.cores turn.slice_end
        turn.hart.0 turn.is_over others.old fate (seats_of seats.old) }
{
    match fate {
        Fate::Goes => go_on(seats, turn, others),
        Fate::Waits => stop(seats, turn, Fate::Waits, others),
        Fate::Leaves => stop(seats, turn, Fate::Leaves, others),
        Fate::Sleeps(moment) => sleep(seats, turn, moment, others),
        Fate::Ends(_) => {
            seats.ready.clear();
            fate
        }
    }
}
