//! The causes of the harts' next events.
ghost use Rattle.std.specs.Prelude.{◌≡◌, ◌+◌, ◌-◌, ◌^◌, ◌<◌, ◌≤◌, Some, length, slice_set};
ghost use Rattle.machines.specs.Guest.{IsLater};
ghost use Rattle.path_causes.specs.Causes.{TellHistories, cause_at, after_own, at_rest, started_with, woken_with};

use coz_types::{HartId, Tick};
use machines::Fate;

/// The cause of a hart's next event.
#[derive(Clone, Copy)]
pub struct Cause {
    /// The event that started the hart, or began its sleep.
    pub from: Option<u32>,
    /// The event of the same hart before.
    pub before: Option<u32>,
    /// The ticks of work of the hart's next instruction.
    pub cost: Tick,
    /// The ticks that the hart slept.
    pub slept: Tick,
}

/// Wakes a hart, whose next instruction takes `ticks` ticks.
pub fn wake_up(causes: &mut [Cause], hart: HartId, ticks: Tick)
    requires below { hart.0 < length causes.old }
    requires fits { (cause_at causes.old hart.0).slept + (cause_at causes.old hart.0).cost
        < 2 ^ 64 }
    ensures { causes.new
        ≡ slice_set causes.old hart.0 (woken_with ticks (cause_at causes.old hart.0)) }
{
    let old = causes[usize::from(hart.0)];
    causes[usize::from(hart.0)] = Cause {
        from: old.from,
        before: old.before,
        cost: ticks,
        slept: old.slept + old.cost,
    };
}

/// Records that a hart retired with this event, due then, and sleeps until `moment`.
#[cold]
#[inline(never)]
fn fall_asleep(causes: &mut [Cause], hart: HartId, moment: Tick, due: Tick, event: u32)
    requires below { hart.0 < length causes.old }
    requires later { due ≤ moment }
    ensures { causes.new ≡ slice_set causes.old hart.0 (record {
      from = Some event;
      before = Some event;
      cost = 0;
      slept = moment - due;
    }) }
{
    causes[usize::from(hart.0)] = Cause {
        from: Some(event),
        before: Some(event),
        cost: 0,
        slept: moment - due,
    };
}

/// Records that a hart retired with this event, and neither goes on nor sleeps.
#[cold]
#[inline(never)]
fn stay(causes: &mut [Cause], hart: HartId, event: u32)
    requires { hart.0 < length causes.old }
    ensures { causes.new
        ≡ slice_set causes.old hart.0 (after_own event (cause_at causes.old hart.0)) }
{
    let old = causes[usize::from(hart.0)];
    causes[usize::from(hart.0)] = Cause {
        before: Some(event),
        ..old
    };
}

/// Records that a hart retired with this event, due then, and this fate. Few retirements end so:
/// what is done then is a call, and no part of the loop over events.
#[inline(always)]
pub fn leave(causes: &mut [Cause], hart: HartId, fate: Fate, due: Tick, event: u32)
    requires below { hart.0 < length causes.old }
    requires later { IsLater due fate }
    ensures { causes.new ≡ slice_set causes.old hart.0
        (at_rest fate due event (after_own event (cause_at causes.old hart.0))) }
{
    match fate {
        Fate::Sleeps(moment) => fall_asleep(causes, hart, moment, due, event),
        _ => stay(causes, hart, event),
    }
}

/// Records that a hart retired with this event and goes on; its next instruction takes `ticks`
/// ticks.
#[inline(always)]
pub fn go_on(causes: &mut [Cause], hart: HartId, ticks: Tick, event: u32)
    requires below { hart.0 < length causes.old }
    ensures { causes.new ≡ slice_set causes.old hart.0
        (started_with ticks event (after_own event (cause_at causes.old hart.0))) }
{
    causes[usize::from(hart.0)] = Cause {
        from: Some(event),
        before: Some(event),
        cost: ticks,
        slept: 0,
    };
}

/// Starts a hart by this event; its next instruction takes `ticks` ticks.
pub fn start(causes: &mut [Cause], hart: HartId, ticks: Tick, event: u32)
    requires below { hart.0 < length causes.old }
    ensures { causes.new ≡ slice_set causes.old hart.0
        (started_with ticks event (cause_at causes.old hart.0)) }
{
    let before = causes[usize::from(hart.0)].before;
    causes[usize::from(hart.0)] = Cause {
        from: Some(event),
        before,
        cost: ticks,
        slept: 0,
    };
}

/// What the calls of this crate keep of a hart is what its history tells: `from` is the latest event
/// that started the hart, or its own event after which it slept; `before` is its own latest event;
/// `cost` is what it was begun with, and `slept` what went before its wake.
pub fn histories()
    ensures { TellHistories }
{}
