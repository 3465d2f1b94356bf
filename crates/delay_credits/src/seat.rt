//! A hart's account, and its pause as the raises at the latest moment leave it.
ghost use Rattle.std.specs.Prelude.{◌≡◌, ◌+◌, ◌-◌, ◌≤◌, ◌<◌, ◌^◌, ℕ, length, slice_index_or, IsTrue};
ghost use Rattle.delay_credits.specs.Seats.{free_of, account_of_seat, pause_of_seat, started_seat, raised_seat, later_seat, AreLater, IsFree, IsSound, IsUnpaused};

use coz_types::{Account, Tick};

/// The raises of the delay at the latest moment at which there was one.
#[derive(Clone, Copy, Drop)]
pub(crate) struct Raises {
    /// That moment.
    pub(crate) at: Tick,
    /// The ticks for which a running hart has to pause at that moment if it is free of none.
    pub(crate) sum: Tick,
}

/// What is kept of a hart while it runs, beside what it raised and was credited with.
#[derive(Clone, Copy, Drop)]
pub(crate) struct Running {
    /// The ticks of all that was raised for which the hart never pauses, besides those that it
    /// raised or was credited with: they were raised while it did not run.
    pub(crate) lacks: Tick,
    /// The ticks of the raises at the moment `at` for which the hart does not pause.
    pub(crate) free: Tick,
    /// The moment of the raises that `free` belongs to. It is free of none at a later moment.
    pub(crate) at: Tick,
}

/// A hart's account and, if the hart runs, what its pause is worked out from. A running hart has
/// paused for all that was raised but for its other parts, so a raise need not touch it. The paused
/// ticks that `account` has are then those from before it ran.
#[derive(Clone, Copy, Drop)]
pub(crate) struct Seat {
    pub(crate) account: Account,
    pub(crate) running: Option<Running>,
}

/// The ticks of the latest raises for which a hart has no pause.
#[inline(always)]
fn free_of(raises: Raises, running: Running) -> Tick
    ensures { result ≡ free_of raises running }
{
    if running.at == raises.at {
        running.free
    } else {
        0
    }
}

/// The pause that a hart has before it at a moment, 0 if it does not run.
#[inline(always)]
pub(crate) fn pause_of(seat: Seat, raises: Raises, now: Tick) -> Tick
    requires past { raises.at ≤ now }
    ensures { result ≡ pause_of_seat raises now seat }
{
    let Some(running) = seat.running else {
        return 0;
    };
    raises
        .sum
        .saturating_sub(free_of(raises, running))
        .saturating_sub(now - raises.at)
}

/// The hart runs, and owes no pause at a moment.
#[inline(always)]
pub(crate) fn is_unpaused(seat: Seat, raises: Raises, now: Tick) -> bool
    requires past { raises.at ≤ now }
    ensures { IsTrue result → IsUnpaused raises now seat }
{
    match seat.running {
        Some(_) => pause_of(seat, raises, now) == 0,
        None => false,
    }
}

/// The account of a hart at a moment.
pub(crate) fn account_of(seat: Seat, raised: Tick, raises: Raises, now: Tick) -> Account
    requires past { raises.at ≤ now }
    requires few { raised ≤ 10 ^ 17 }
    requires sound { IsSound raised raises seat }
    ensures { result ≡ account_of_seat raised raises now seat }
{
    let Some(running) = seat.running else {
        return seat.account;
    };
    let pause = pause_of(seat, raises, now);
    Account {
        paused: raised - (seat.account.own + seat.account.credited + running.lacks + pause),
        ..seat.account
    }
}

/// The seat of a hart that runs from a moment on with no pause.
pub(crate) fn start(seat: Seat, raised: Tick, raises: Raises, now: Tick) -> Seat
    requires past { raises.at ≤ now }
    requires few { raised ≤ 10 ^ 17 }
    requires sound { IsSound raised raises seat }
    ensures { result ≡ started_seat raised raises now seat }
{
    let account = account_of(seat, raised, raises, now);
    Seat {
        account,
        running: Some(Running {
            lacks: raised - (account.own + account.credited + account.paused),
            free: raises.sum,
            at: raises.at,
        }),
    }
}

/// The seat of a running hart after it raised the delay at the moment of the latest raises.
pub(crate) fn raise(seat: Seat, raises: Raises, ticks: Tick) -> Seat
    requires own { seat.account.own + ticks < 2 ^ 64 }
    requires sum { raises.sum + ticks < 2 ^ 64 }
    requires free { IsFree raises seat.running }
    ensures { result ≡ raised_seat raises ticks seat }
{
    let Some(running) = seat.running else {
        return seat;
    };
    Seat {
        account: Account {
            own: seat.account.own + ticks,
            ..seat.account
        },
        running: Some(Running {
            free: free_of(raises, running) + ticks,
            at: raises.at,
            ..running
        }),
    }
}

/// The seat of the same hart, if of the latest raises only `sum` ticks were left at a moment.
fn later(seat: Seat, raises: Raises, new: Raises) -> Seat
    ensures { result ≡ later_seat raises new seat }
{
    let Some(running) = seat.running else {
        return seat;
    };
    Seat {
        running: Some(Running {
            free: free_of(raises, running).min(new.sum),
            at: new.at,
            ..running
        }),
        ..seat
    }
}

/// The raises as they are at a moment, and each seat beside them. The seats change only if a hart
/// may still pause then for raises at an earlier moment.
#[inline(always)]
pub(crate) fn renew(seats: &mut [Seat], raises: Raises, now: Tick) -> Raises
    requires past { raises.at ≤ now }
    ensures at { result.at ≡ now }
    ensures sum { result.sum ≡ raises.sum - (now - raises.at) }
    ensures seats { AreLater now raises result seats.old seats.new }
{
    let passed = now - raises.at;
    if passed == 0 {
        return raises;
    }
    let new = Raises {
        at: now,
        sum: raises.sum.saturating_sub(passed),
    };
    if new.sum > 0 {
        renew_each(seats, raises, new);
    }
    new
}

/// Gives each hart the part of the raises at another moment for which it has no pause.
#[inline(never)]
fn renew_each(seats: &mut [Seat], raises: Raises, new: Raises)
    ensures { (index : ℕ) → index < length seats.old → (d : Seat) →
        slice_index_or seats.new index d ≡ later_seat raises new (slice_index_or seats.old index d) }
{
    for index in 0..seats.len() {
        seats[index] = later(seats[index], raises, new);
    }
}
