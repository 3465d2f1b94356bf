//! The accounts and pauses of the harts that a retirement starts.

ghost use Rattle.std.specs.Prelude.{◌≡◌, ◌+◌, ◌*◌, ◌^◌, ◌≤◌, ◌<◌, [], ◌∷◌, length, map, None, if◌then◌else◌, IsTrue};
ghost use Rattle.coz_types.specs.declared.TheConstants.{MAX_SPEEDUP};
ghost use Rattle.run_engine.specs.Engine.{most_ticks};
ghost use Rattle.machines.specs.Delayed.{has_load, total};
ghost use Rattle.machines.specs.Guest.{goes_on};
ghost use Rattle.delay_credits.specs.Delays.{hart_at, pause_of, at, with_stop};
ghost use Rattle.timed_guest.specs.Guest.{IsMade};
ghost use Rattle.virtual_run.specs.Credited.{raise_ticks, with_credits, with_starts, with_raises, with_begun, with_rest, with_wake, credits_after, moment_of, credited_by, CanAccount, AllRest, AllBelow, AllRun, AllMade, CanBegin, IsAlone};

use coz_types::{HartId, Tick};
use delay_credits::Credits;
use guest_calls::Fate;
use run_engine::{Engine, Event, Retired, has_any};
use timed_guest::TimedGuest;

/// Each of these harts is credited with what its total lacks of its waker's,
/// which is all that was raised.
fn credit_each(credits: &mut Credits, harts: &[HartId], waker: HartId)
    requires rest { AllRest credits.old (map (λ hart. hart.0) harts.now) }
    requires waker_below { waker.0 < length credits.old.harts }
    requires whole { total (hart_at credits.old waker.0).account ≡ credits.old.raised }
    ensures { credits.new ≡ with_credits (map (λ hart. hart.0) harts.now) credits.old }
{
    for hart in harts {
        credits.take_credit(*hart, waker);
    }
}

/// Starts a hart that goes on at the latest moment, with no pause.
fn start_again(credits: &mut Credits, hart: HartId, fate: Fate, now: Tick)
    requires below { IsTrue (goes_on fate) → hart.0 < length credits.old.harts }
    requires now { credits.old.latest ≡ now }
    ensures { credits.new
        ≡ (if goes_on fate then with_starts (hart.0 ∷ []) credits.old else credits.old) }
{
    if let Fate::Goes = fate {
        credits.start(hart, now);
    }
}

/// Starts these harts at the latest moment, with no pause.
fn start_each(credits: &mut Credits, harts: &[HartId], now: Tick)
    requires below { AllBelow credits.old (map (λ hart. hart.0) harts.now) }
    requires now { credits.old.latest ≡ now }
    ensures { credits.new ≡ with_starts (map (λ hart. hart.0) harts.now) credits.old }
{
    for hart in harts {
        credits.start(*hart, now);
    }
}

/// The ticks by which a hart's next instruction raises the delay if it is selected, at a
/// speedup in per cent.
pub fn raised_by(guest: &TimedGuest, hart: HartId, speedup: u8) -> Tick
    requires made { IsMade guest.now hart.0 }
    requires speedup { speedup ≤ MAX_SPEEDUP }
    ensures ticks { result ≡ raise_ticks guest.now speedup hart.0 }
    ensures few { result ≤ most_ticks guest.now.beside.timing }
{
    guest.next_cycles(hart) * u64::from(speedup)
}

/// Raises the delay for each of these harts in turn at the latest moment, by its next instruction.
#[inline(never)]
pub fn raise_harts(
    credits: &mut Credits,
    guest: &TimedGuest,
    harts: &[HartId],
    speedup: u8,
    now: Tick,
)
    requires run { AllRun credits.old (map (λ hart. hart.0) harts.now) }
    requires made { AllMade guest.now (map (λ hart. hart.0) harts.now) }
    requires speedup { speedup ≤ MAX_SPEEDUP }
    requires now { credits.old.latest ≡ now }
    requires few { credits.old.raised
        + most_ticks guest.now.beside.timing * length (map (λ hart. hart.0) harts.now) ≤ 10 ^ 17 }
    ensures { credits.new
        ≡ with_raises (raise_ticks guest.now speedup) (map (λ hart. hart.0) harts.now) credits.old }
{
    for hart in harts {
        credits.raise(*hart, raised_by(guest, *hart, speedup), now);
    }
}

/// The selected harts that began last raise the delay in turn, at the latest moment.
pub fn raise_selected(credits: &mut Credits, engine: &Engine, speedup: u8, now: Tick)
    requires run { AllRun credits.old engine.now.selected }
    requires made { AllMade engine.now.guest engine.now.selected }
    requires speedup { speedup ≤ MAX_SPEEDUP }
    requires now { credits.old.latest ≡ now }
    requires few { credits.old.raised
        + most_ticks engine.now.guest.beside.timing * length engine.now.selected ≤ 10 ^ 17 }
    ensures { credits.new
        ≡ with_raises (raise_ticks engine.now.guest speedup) engine.now.selected credits.old }
{
    let harts = engine.selected.harts();
    raise_harts(credits, &engine.guest, harts, speedup, now);
}

/// Accounts for the starts after a retirement from which the run goes on: the harts that it made
/// or woke are credited, all that it started run, and only then those of them that are selected
/// raise the delay in turn.
#[inline(never)]
fn credit_started(credits: &mut Credits, engine: &Engine, retired: Retired, speedup: u8, now: Tick)
    requires can { CanBegin credits.old engine.now.guest retired.hart.0 retired.fate
        engine.now.started engine.now.selected }
    requires speedup { speedup ≤ MAX_SPEEDUP }
    requires now { credits.old.latest ≡ now }
    ensures { credits.new ≡ with_begun (raise_ticks engine.now.guest speedup)
        retired.hart.0 retired.fate engine.now.started engine.now.selected credits.old }
{
    credit_each(credits, engine.started.harts(), retired.hart);
    start_again(credits, retired.hart, retired.fate, now);
    start_each(credits, engine.started.harts(), now);
    raise_harts(
        credits,
        &engine.guest,
        engine.selected.harts(),
        speedup,
        now,
    );
}

/// Whether a run goes on after a retirement that started no hart.
#[inline(always)]
fn is_alone(engine: &Engine) -> bool
    ensures { IsTrue result → IsAlone engine.now.ending Fate.Goes engine.now.started }
{
    engine.ending.is_none() && engine.started.harts().is_empty()
}

/// Accounts for a hart that goes on while nothing else begins: it still runs, and raises the delay
/// if it is selected.
#[inline(always)]
fn go_on(credits: &mut Credits, engine: &Engine, hart: HartId, speedup: u8, now: Tick)
    requires alone { IsAlone engine.now.ending Fate.Goes engine.now.started }
    requires below { hart.0 < length credits.old.harts }
    requires later { credits.old.latest ≤ now }
    requires can { CanBegin (with_rest hart.0 Fate.Goes now credits.old)
        engine.now.guest hart.0 Fate.Goes engine.now.started engine.now.selected }
    requires speedup { speedup ≤ MAX_SPEEDUP }
    ensures { credits.new ≡ with_begun (raise_ticks engine.now.guest speedup)
        hart.0 Fate.Goes engine.now.started engine.now.selected
        (with_rest hart.0 Fate.Goes now credits.old) }
{
    credits.start(hart, now);
    if has_any(&engine.selected) {
        let raisers = engine.selected.harts();
        raise_harts(credits, &engine.guest, raisers, speedup, now);
    }
}

/// Stops a hart that retired, at a moment. A hart that sleeps counts as one that runs, so it
/// starts again at once.
#[inline(never)]
fn stop_retired(credits: &mut Credits, hart: HartId, fate: Fate, now: Tick)
    requires below { hart.0 < length credits.old.harts }
    requires later { credits.old.latest ≤ now }
    requires running { IsTrue (has_load (hart_at credits.old hart.0)) }
    requires unpaused { pause_of (hart_at (at now credits.old) hart.0) ≡ 0 }
    ensures { credits.new ≡ with_rest hart.0 fate now credits.old }
{
    match fate {
        Fate::Sleeps(_) => credits.start(hart, now),
        _ => credits.stop(hart, now),
    }
}

/// Accounts for a wake: the hart starts again at its moment,
/// and raises the delay if it is selected.
#[inline(never)]
fn wake_up(credits: &mut Credits, engine: &Engine, hart: HartId, speedup: u8, now: Tick)
    requires below { hart.0 < length credits.old.harts }
    requires later { credits.old.latest ≤ now }
    requires run { AllRun (with_starts (hart.0 ∷ []) (at now credits.old)) engine.now.selected }
    requires made { AllMade engine.now.guest engine.now.selected }
    requires speedup { speedup ≤ MAX_SPEEDUP }
    requires few { credits.old.raised
        + most_ticks engine.now.guest.beside.timing * length engine.now.selected ≤ 10 ^ 17 }
    ensures { credits.new ≡ with_wake (raise_ticks engine.now.guest speedup)
        hart.0 engine.now.selected (at now credits.old) }
{
    credits.start(hart, now);
    raise_selected(credits, engine, speedup, now);
}

/// Accounts for a retirement at a moment and the starts after it:
/// the hart stops, and if the run goes on, what it started begins.
#[inline(never)]
fn account_retirement(
    credits: &mut Credits,
    engine: &Engine,
    retired: Retired,
    speedup: u8,
    now: Tick,
)
    requires below { retired.hart.0 < length credits.old.harts }
    requires later { credits.old.latest ≤ now }
    requires running { IsTrue (has_load (hart_at credits.old retired.hart.0)) }
    requires unpaused { pause_of (hart_at (at now credits.old) retired.hart.0) ≡ 0 }
    requires can { engine.now.ending ≡ None →
        CanBegin (with_rest retired.hart.0 retired.fate now credits.old)
        engine.now.guest retired.hart.0 retired.fate engine.now.started engine.now.selected }
    requires speedup { speedup ≤ MAX_SPEEDUP }
    ensures { credits.new ≡ credits_after engine.now.ending (raise_ticks engine.now.guest speedup)
        retired.hart.0 retired.fate engine.now.started engine.now.selected
        (with_rest retired.hart.0 retired.fate now credits.old) }
{
    stop_retired(credits, retired.hart, retired.fate, now);
    if engine.ending.is_none() {
        credit_started(credits, engine, retired, speedup, now);
    }
}

/// Accounts for a retirement of a hart that goes on. It takes a shorter way
/// if nothing else begins, as after most retirements.
#[inline(always)]
fn account_plain(credits: &mut Credits, engine: &Engine, hart: HartId, speedup: u8, now: Tick)
    requires below { hart.0 < length credits.old.harts }
    requires later { credits.old.latest ≤ now }
    requires running { IsTrue (has_load (hart_at credits.old hart.0)) }
    requires unpaused { pause_of (hart_at (at now credits.old) hart.0) ≡ 0 }
    requires can { engine.now.ending ≡ None →
        CanBegin (with_rest hart.0 Fate.Goes now credits.old)
        engine.now.guest hart.0 Fate.Goes engine.now.started engine.now.selected }
    requires speedup { speedup ≤ MAX_SPEEDUP }
    ensures { credits.new ≡ credits_after engine.now.ending (raise_ticks engine.now.guest speedup)
        hart.0 Fate.Goes engine.now.started engine.now.selected
        (with_rest hart.0 Fate.Goes now credits.old) }
{
    if is_alone(engine) {
        go_on(credits, engine, hart, speedup, now);
    } else {
        let retired = Retired {
            hart,
            fate: Fate::Goes,
        };
        account_retirement(credits, engine, retired, speedup, now);
    }
}

/// Accounts for an event and the starts after it, if `raised` ticks were
/// raised before it. Returns the real moment of the event.
#[inline(always)]
pub fn account_event(
    credits: &mut Credits,
    engine: &Engine,
    event: Event,
    speedup: u8,
    raised: Tick,
) -> Tick
    requires can { CanAccount event credits.old engine.now (moment_of event engine.now + raised) }
    requires few { moment_of event engine.now + raised ≤ 10 ^ 17 }
    requires speedup { speedup ≤ MAX_SPEEDUP }
    ensures moment { result ≡ moment_of event engine.now + raised }
    ensures credits { credits.new ≡ credited_by event engine.now
        (raise_ticks engine.now.guest speedup) (moment_of event engine.now + raised) credits.old }
{
    match event {
        Event::Retired(
            Retired {
                hart,
                fate: Fate::Goes,
            },
        ) => {
            let now = engine.time + raised;
            account_plain(credits, engine, hart, speedup, now);
            now
        }
        Event::Retired(retired) => {
            let now = engine.time + raised;
            account_retirement(credits, engine, retired, speedup, now);
            now
        }
        Event::Woke(turn) => {
            let now = turn.due + raised;
            wake_up(credits, engine, turn.hart, speedup, now);
            now
        }
    }
}
