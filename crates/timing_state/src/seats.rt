//! Who has a core, who stands in line, and when slices end.
ghost use Rattle.std.specs.Prelude.{◌≡◌, ◌≢◌, ◌⊎◌, ℕ, true, false, ◌+◌, ◌<◌, ◌≤◌, [], ◌∷◌, ◌++◌, length, All, IfOk};
ghost use Rattle.coz_types.specs.declared.TheConstants.{HARTS};
ghost use Rattle.timing_laws.specs.Cores.{fill, in_line, starting};
ghost use Rattle.timing_steps.specs.State.{first_seats};
ghost use Rattle.timing_state.specs.Held.{Starts, seats_of};

use crate::{Places, Ready};
use coz_types::Tick;
use guest_futex::HartList;
use std::alloc::{AllocError, Global};

/// The cores of a machine: the harts that stand in line, how many have a core, and when the slice
/// of each hart ends (ticks).
#[derive(Drop)]
pub struct Seats {
    pub(crate) ready: Ready,
    pub(crate) on: usize,
    pub(crate) slice_ends: Places<Tick>,
}

/// Returns the cores at the start of a run: hart 0 has a core, with a slice of `slice` ticks. Fails
/// only if out of memory.
pub(crate) fn first_seats(alloc: Global, slice: Tick) -> Result<Seats, AllocError>
    ensures { IfOk result (λ seats. seats_of seats ≡ first_seats slice) }
{
    Ok(Seats {
        ready: Ready::new(alloc)?,
        on: 1,
        slice_ends: Places::new(alloc, slice)?,
    })
}

/// Makes these seats equal to others.
pub(crate) fn copy_seats(seats: &mut Seats, other: &Seats)
    ensures { seats_of seats.new ≡ seats_of other.now }
{
    seats.ready.copy_from(&other.ready);
    seats.on = other.on;
    seats.slice_ends.copy_from(&other.slice_ends);
}

/// Whether a core is free, and somebody stands in line.
#[inline(always)]
pub(crate) fn can_start(seats: &Seats, cores: usize) -> bool
    ensures yes { result ≡ true → (seats.now.on < cores) × (seats.now.ready ≢ []) }
    ensures no { result ≡ false → (cores ≤ seats.now.on) ⊎ (seats.now.ready ≡ []) }
{
    seats.on < cores && !seats.ready.is_empty()
}

/// Gives a core to the first in line, with a slice up to a moment, and appends it to a list.
#[inline(never)]
fn start_first(seats: &mut Seats, moment: Tick, started: &mut HartList)
    requires some { seats.old.ready ≢ [] }
    requires few { seats.old.on < HARTS }
    requires room { length started.old < HARTS }
    ensures { (first : ℕ) × Starts moment first (seats_of seats.old) (seats_of seats.new)
        × (started.new ≡ started.old ++ first ∷ []) }
{
    let Some(hart) = seats.ready.take_first() else {
        unreachable!()
    };
    seats.slice_ends.put(hart, moment, 0);
    started.push(hart);
    seats.on += 1;
}

/// Lets the first in line start while cores are free, with slices up to a moment. They are
/// appended to `started`.
#[inline]
pub(crate) fn fill(seats: &mut Seats, cores: usize, moment: Tick, started: &mut HartList)
    requires few { cores ≤ HARTS }
    requires room { length started.old + length seats.old.ready ≤ HARTS }
    ensures seats { seats_of seats.new ≡ fill cores moment (seats_of seats.old) }
    ensures started { started.new ≡ started.old ++ starting cores (seats_of seats.old) }
{
    'filling: while can_start(seats, cores) {
        start_first(seats, moment, started);
    }
}

/// Puts harts at the end of the line, and empties their list.
#[inline]
pub(crate) fn line_up(seats: &mut Seats, others: &mut HartList)
    requires low { All (λ hart. hart < HARTS) others.old }
    requires room { length seats.old.ready + length others.old ≤ HARTS }
    ensures seats { seats_of seats.new ≡ in_line others.old (seats_of seats.old) }
    ensures others { others.new ≡ [] }
{
    let harts = others.harts();
    for i in 0..harts.len() {
        seats.ready.push(harts[i]);
    }
    others.clear();
}

/// Puts harts at the end of the line, and then lets the first in line start while cores are free.
/// The list then has those that start.
#[inline]
pub(crate) fn shift(seats: &mut Seats, cores: usize, moment: Tick, others: &mut HartList)
    requires few { cores ≤ HARTS }
    requires low { All (λ hart. hart < HARTS) others.old }
    requires room { length seats.old.ready + length others.old ≤ HARTS }
    ensures seats { seats_of seats.new
        ≡ fill cores moment (in_line others.old (seats_of seats.old)) }
    ensures others { others.new ≡ starting cores (in_line others.old (seats_of seats.old)) }
{
    line_up(seats, others);
    fill(seats, cores, moment, others);
}
