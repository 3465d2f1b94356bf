//! The causes of the harts' next events, and the events, after each move of the engine.
ghost use Rattle.std.specs.Prelude.{◌≡◌, ◌<◌, ◌++◌, [], ◌∷◌, ℕ, true, None, if◌then◌else◌, length, map, slice_set, IsSome, OnOk, IfOk};
ghost use Rattle.coz_types.specs.declared.TheConstants.{HARTS};
ghost use Rattle.hart_schedule.specs.Keys.{key_of};
ghost use Rattle.machines.specs.Places.{is_among};
ghost use Rattle.machines.specs.Guest.{IsLater};
ghost use Rattle.run_engine.specs.Begin.{started_by};
ghost use Rattle.path_causes.specs.Causes.{cause_at, started_with, woken_with, turned};
ghost use Rattle.critical_path.specs.Recording.{ticks_from, IsBegun, CanRecord, IsRecorded};

use coz_types::{Address, HARTS, HartId, Tick};
use machines::Fate;
use path_causes::{Cause, go_on, leave, start, wake_up};
use path_chains::Event;
use run_engine::{Engine, Event as Move, Retired, Turn};
use std::alloc::{AllocError, Global};

/// The ticks of the instruction that a hart began at a moment.
pub fn ticks_from(engine: &Engine, moment: Tick, hart: HartId) -> Tick
    requires { IsBegun engine.now.schedule moment hart.0 }
    ensures { result ≡ ticks_from engine.now.schedule moment hart.0 }
{
    match engine.due(hart) {
        Some(due) => due - moment,
        None => 0,
    }
}

/// The ticks of the next instruction of a hart that is due, and that began it at a moment.
#[inline(always)]
fn ticks_due(engine: &Engine, moment: Tick, hart: HartId) -> Tick
    requires due { IsSome (key_of engine.now.schedule hart.0) }
    requires begun { IsBegun engine.now.schedule moment hart.0 }
    ensures { result ≡ ticks_from engine.now.schedule moment hart.0 }
{
    match engine.due(hart) {
        Some(due) => due - moment,
        None => unreachable!(),
    }
}

/// Records that the hart which retired with this event goes on, or what its fate is.
#[inline(always)]
fn go_on_or_leave(engine: &Engine, retired: Retired, causes: &mut [Cause], event: u32)
    requires below { retired.hart.0 < length causes.old }
    requires later { IsLater engine.now.time retired.fate }
    requires begun { (k : ℕ) → is_among k (started_by retired.hart.0 retired.fate []) ≡ true
        → IsSome (key_of engine.now.schedule k) × IsBegun engine.now.schedule engine.now.time k }
    ensures { (k : ℕ) → cause_at causes.new k
        ≡ turned retired.hart.0 retired.fate engine.now.time event
        (started_by retired.hart.0 retired.fate [])
        (ticks_from engine.now.schedule engine.now.time) k (cause_at causes.old k) }
{
    match retired.fate {
        Fate::Goes => {
            let ticks = ticks_due(engine, engine.time(), retired.hart);
            go_on(causes, retired.hart, ticks, event);
        }
        fate => leave(causes, retired.hart, fate, engine.time(), event),
    }
}

/// Begins the next instruction of each hart that this event started.
fn start_each(engine: &Engine, harts: &[HartId], causes: &mut [Cause], event: u32)
    requires room { length causes.old ≡ HARTS }
    requires begun { (k : ℕ) → is_among k (map (λ hart. hart.0) harts.now) ≡ true
        → (k < HARTS) × IsBegun engine.now.schedule engine.now.time k }
    ensures { (k : ℕ) → cause_at causes.new k
        ≡ (if is_among k (map (λ hart. hart.0) harts.now)
        then started_with (ticks_from engine.now.schedule engine.now.time k) event
        (cause_at causes.old k) else cause_at causes.old k) }
{
    for hart in harts {
        let ticks = ticks_from(engine, engine.time(), *hart);
        start(causes, *hart, ticks, event);
    }
}

/// Records the retirement of a hart by this event.
#[inline(always)]
fn record_retired(engine: &Engine, retired: Retired, causes: &mut [Cause], event: u32)
    requires room { length causes.old ≡ HARTS }
    requires below { retired.hart.0 < HARTS }
    requires later { IsLater engine.now.time retired.fate }
    requires begun { (k : ℕ)
        → is_among k (started_by retired.hart.0 retired.fate engine.now.started) ≡ true
        → (k < HARTS) × (IsSome (key_of engine.now.schedule k)
        × IsBegun engine.now.schedule engine.now.time k) }
    ensures { (k : ℕ) → cause_at causes.new k
        ≡ turned retired.hart.0 retired.fate engine.now.time event
        (started_by retired.hart.0 retired.fate engine.now.started)
        (ticks_from engine.now.schedule engine.now.time) k (cause_at causes.old k) }
{
    go_on_or_leave(engine, retired, causes, event);
    start_each(engine, engine.started(), causes, event);
}

/// Appends the event of a hart with this cause. There is no branch before the push.
#[inline(always)]
fn push_event(
    events: &mut Vec<Event>,
    hart: HartId,
    address: Address,
    cause: Cause,
    due: Tick,
) -> Result<(), AllocError>
    ensures { OnOk result (events.new.items ≡ events.old.items ++ record {
      hart = hart;
      address = address;
      cost = cause.cost;
      slept = cause.slept;
      from = cause.from;
      before = cause.before;
      due = due;
    } ∷ []) }
{
    events.push(Event {
        hart,
        address,
        cost: cause.cost,
        slept: cause.slept,
        from: cause.from,
        before: cause.before,
        due,
    })?;
    Ok(())
}

/// The cause of each hart's next event, and the events so far.
#[derive(Drop)]
pub struct Walked {
    pub causes: Vec<Cause>,
    pub events: Vec<Event>,
}

/// Records the move that led to this engine. The hart was at `address` before it. Fails only if
/// out of memory.
#[inline(always)]
pub fn record_move(
    engine: &Engine,
    moved: Move,
    address: Address,
    walked: &mut Walked,
) -> Result<(), AllocError>
    requires { CanRecord engine.now moved walked.old.causes.items walked.old.events.items }
    ensures recorded { OnOk result (IsRecorded engine.now moved address
        walked.old.causes.items walked.old.events.items
        walked.new.causes.items walked.new.events.items) }
    ensures room { OnOk result (length walked.new.causes.items
        ≡ length walked.old.causes.items) }
{
    match moved {
        Move::Woke(turn) => {
            let ticks = ticks_from(engine, turn.due, turn.hart);
            wake_up(&mut walked.causes, turn.hart, ticks);
            Ok(())
        }
        Move::Retired(retired) => {
            let number = walked.events.len() as u32;
            let cause = walked.causes[usize::from(retired.hart.0)];
            push_event(
                &mut walked.events,
                retired.hart,
                address,
                cause,
                engine.time(),
            )?;
            if engine.ending().is_none() {
                record_retired(engine, retired, &mut walked.causes, number);
            }
            Ok(())
        }
    }
}
