//! The instructions that an event of the engine begins.
ghost use Rattle.std.specs.Prelude.{◌≡◌, ◌+◌, ◌*◌, ◌^◌, ◌≤◌, ◌<◌, ℕ, [], true, fold, length, map};
ghost use Rattle.machines.specs.Places.{is_among};
ghost use Rattle.timing_steps.specs.declared.ticks.TheConstants.{MAX_TICKS};
ghost use Rattle.timed_guest.specs.Guest.{IsMade};
ghost use Rattle.run_engine.specs.Begin.{started_by};
ghost use Rattle.run_counts.specs.Counts.{counts_of, IsWithin};
ghost use Rattle.counted_run.specs.Begun.{with_hart, begun_by};

use coz_types::HartId;
use guest_calls::Fate;
use run_counts::{Tallies, add};
use run_engine::{Engine, Event, Retired};
use timed_guest::TimedGuest;

/// Counts that a hart begins its next instruction.
pub fn count(tallies: &mut Tallies, guest: &TimedGuest, hart: HartId)
    requires made { IsMade guest.now hart.0 }
    requires within { IsWithin (counts_of tallies.old) }
    requires few { tallies.old.begun < 2 ^ 50 }
    requires room { tallies.old.all + MAX_TICKS < 2 ^ 64 }
    ensures small { tallies.new.all ≤ tallies.old.all + MAX_TICKS }
    ensures counts { counts_of tallies.new
        ≡ with_hart guest.now (counts_of tallies.old) hart.0 }
{
    let line = guest.line_of(hart);
    let cycles = guest.next_cycles(hart);
    add(tallies, line, 100 * cycles);
}

/// Each of these harts begins its next instruction.
fn count_each(tallies: &mut Tallies, guest: &TimedGuest, harts: &[HartId])
    requires made { (k : ℕ) → is_among k (map (λ hart. hart.0) harts.now) ≡ true
        → IsMade guest.now k }
    requires within { IsWithin (counts_of tallies.old) }
    requires few { tallies.old.begun + length harts.now ≤ 2 ^ 50 }
    requires room { tallies.old.all + MAX_TICKS * length harts.now < 2 ^ 64 }
    ensures { counts_of tallies.new
        ≡ fold (with_hart guest.now) (counts_of tallies.old)
        (map (λ hart. hart.0) harts.now) }
{
    for hart in harts {
        count(tallies, guest, *hart);
    }
}

/// The hart that retired begins its next instruction, if it goes on.
fn count_again(tallies: &mut Tallies, guest: &TimedGuest, retired: Retired)
    requires made { (k : ℕ) → is_among k (started_by retired.hart.0 retired.fate []) ≡ true
        → IsMade guest.now k }
    requires within { IsWithin (counts_of tallies.old) }
    requires few { tallies.old.begun < 2 ^ 50 }
    requires room { tallies.old.all + MAX_TICKS < 2 ^ 64 }
    ensures small { tallies.new.all ≤ tallies.old.all + MAX_TICKS }
    ensures counts { counts_of tallies.new
        ≡ fold (with_hart guest.now) (counts_of tallies.old)
        (started_by retired.hart.0 retired.fate []) }
{
    if let Fate::Goes = retired.fate {
        count(tallies, guest, retired.hart);
    }
}

/// Counts the instructions that the harts begin which a retirement started.
fn count_started(tallies: &mut Tallies, engine: &Engine, retired: Retired)
    requires made { (k : ℕ)
        → is_among k (started_by retired.hart.0 retired.fate engine.now.started) ≡ true
        → IsMade engine.now.guest k }
    requires within { IsWithin (counts_of tallies.old) }
    requires few { tallies.old.begun + 1 + length engine.now.started ≤ 2 ^ 50 }
    requires room { tallies.old.all + MAX_TICKS * (1 + length engine.now.started) < 2 ^ 64 }
    ensures { counts_of tallies.new
        ≡ fold (with_hart engine.now.guest) (counts_of tallies.old)
        (started_by retired.hart.0 retired.fate engine.now.started) }
{
    count_again(tallies, &engine.guest, retired);
    count_each(tallies, &engine.guest, engine.started());
}

/// Counts what each hart begins that the last event of this engine started.
pub fn count_begun(tallies: &mut Tallies, engine: &Engine, event: Event)
    requires made { (k : ℕ) → is_among k (begun_by engine.now event) ≡ true
        → IsMade engine.now.guest k }
    requires within { IsWithin (counts_of tallies.old) }
    requires few { tallies.old.begun + 1 + length (begun_by engine.now event) ≤ 2 ^ 50 }
    requires room { tallies.old.all + MAX_TICKS * (1 + length (begun_by engine.now event)) < 2 ^ 64 }
    ensures { counts_of tallies.new
        ≡ fold (with_hart engine.now.guest) (counts_of tallies.old)
        (begun_by engine.now event) }
{
    match event {
        Event::Woke(turn) => count(tallies, &engine.guest, turn.hart),
        Event::Retired(retired) => {
            if engine.ending().is_none() {
                count_started(tallies, engine, retired);
            }
        }
    }
}
