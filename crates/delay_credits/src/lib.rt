//! The delay that each hart has raised, paused and been credited.
//!
//! After C. Curtsinger and E. D. Berger, "Coz: finding code that counts with causal profiling",
//! SOSP 2015, whose threads count the delays that they owe: a thread that is woken
//! by another one owes none of those that the waker has paid.
#![tactic(auto)]

mod seat;

ghost use Rattle.std.specs.Prelude.{◌≡◌, ◌+◌, ◌≤◌, ◌<◌, ◌^◌, false, length, replicate, IfOk, IsTrue};
ghost use Rattle.machines.specs.Delayed.{idle_hart, has_load, total};
ghost use Rattle.delay_credits.specs.Delays.{none_raised, hart_at, pause_of, account_as, at, with_start, with_stop, with_raise, with_credit};

use crate::seat::{Raises, Seat, account_of, is_unpaused, pause_of, raise, renew, start};
use coz_types::{Account, HartId, Tick};
use std::alloc::{AllocError, Global};
use std::marker::Model;

/// The accounts and pauses of harts of a number given at making, and the delay that they raised.
/// A hart that sleeps counts as one that runs.
///
/// Contracts see each hart as it is at the latest moment that `start`, `stop` or `raise` got.
/// The code keeps of a running hart what it has not paused for, and of the raises at the latest
/// moment their sum, so a raise touches the seat of the hart that raises and no other. Only if some
/// hart may still pause for an earlier raise does a raise look at all of them. `new` alone can be
/// out of memory.
#[derive(Drop)]
pub struct Credits {
    seats: Vec<Seat>,
    latest: Tick,
    raised: Tick,
    raises: Raises,
}

impl Model for Credits {
    ghost use Rattle.std.specs.Prelude.{◌≤◌, ◌^◌, map, All};
    ghost use Rattle.delay_credits.specs.Delays.{Delays};

    ghost Value = { Delays };

    ghost use Rattle.delay_credits.specs.Seats.{hart_of_seat, IsSound};

    ghost view = { λ c. record {
      latest = c.latest;
      raised = c.raised;
      harts = map (hart_of_seat c.raised c.raises c.latest) c.seats.items;
    } };

    ghost invariant = { λ c. (c.raised ≤ 10 ^ 17) × (c.raises.at ≤ c.latest)
        × (c.raises.sum ≤ c.raised) × All (IsSound c.raised c.raises) c.seats.items };
}

/// The seat of a hart that does not run, with nothing in its account.
const NOT_RUNNING: Seat = Seat {
    account: Account {
        own: 0,
        paused: 0,
        credited: 0,
    },
    running: None,
};

impl Credits {
    /// Harts that do not run, with accounts of zeros. Err if out of memory.
    pub fn new(alloc: Global, harts: u32) -> Result<Credits, AllocError>
        ensures { IfOk result (λ credits. credits ≡ none_raised harts) }
    {
        Ok(Credits {
            seats: vec![in alloc; NOT_RUNNING; harts as usize]?,
            latest: 0,
            raised: 0,
            raises: Raises { at: 0, sum: 0 },
        })
    }

    /// Starts a hart's next instruction, or its sleep, at a moment, with no pause before it. The
    /// account of a hart that runs and owes no pause stays as it is.
    pub fn start(&mut self, hart: HartId, now: Tick)
        requires below { hart.0 < length self.old.harts }
        requires later { self.old.latest ≤ now }
        ensures { self.new ≡ with_start hart.0 now self.old }
    {
        let index = usize::from(hart.0);
        let seat = self.seats[index];
        if is_unpaused(seat, self.raises, now) {
            self.latest = now;
            return;
        }
        self.seats[index] = start(seat, self.raised, self.raises, now);
        self.latest = now;
    }

    /// Stops a running hart that has no pause before it: from the moment on it waits or has exited.
    pub fn stop(&mut self, hart: HartId, now: Tick)
        requires below { hart.0 < length self.old.harts }
        requires later { self.old.latest ≤ now }
        requires running { IsTrue (has_load (hart_at self.old hart.0)) }
        requires unpaused { pause_of (hart_at (at now self.old) hart.0) ≡ 0 }
        ensures { self.new ≡ with_stop hart.0 now self.old }
    {
        let index = usize::from(hart.0);
        let account = account_of(self.seats[index], self.raised, self.raises, now);
        self.seats[index] = Seat {
            account,
            running: None,
        };
        self.latest = now;
    }

    /// Raises the global delay at a moment: the account of the running hart that raises it grows,
    /// and so does the pause of each other running hart.
    pub fn raise(&mut self, hart: HartId, ticks: Tick, now: Tick)
        requires below { hart.0 < length self.old.harts }
        requires later { self.old.latest ≤ now }
        requires running { IsTrue (has_load (hart_at self.old hart.0)) }
        requires few { self.old.raised + ticks ≤ 10 ^ 17 }
        ensures { self.new ≡ with_raise hart.0 ticks now self.old }
    {
        let raises = renew(&mut self.seats, self.raises, now);
        let index = usize::from(hart.0);
        self.seats[index] = raise(self.seats[index], raises, ticks);
        self.raises = Raises {
            sum: raises.sum + ticks,
            ..raises
        };
        self.raised += ticks;
        self.latest = now;
    }

    /// Credits a hart that does not run with the delay that its account lacks: its total is then
    /// its waker's, which is the global delay.
    pub fn take_credit(&mut self, woken: HartId, waker: HartId)
        requires woken_below { woken.0 < length self.old.harts }
        requires waker_below { waker.0 < length self.old.harts }
        requires waits { has_load (hart_at self.old woken.0) ≡ false }
        requires whole { total (hart_at self.old waker.0).account ≡ self.old.raised }
        ensures { self.new ≡ with_credit woken.0 waker.0 self.old }
    {
        let index = usize::from(woken.0);
        let account = self.seats[index].account;
        let total = account.own + account.paused + account.credited;
        self.seats[index] = Seat {
            account: Account {
                credited: account.credited + (self.raised - total),
                ..account
            },
            running: None,
        };
    }

    /// The global delay: the sum of all that was raised.
    pub fn raised(&self) -> Tick
        ensures { result ≡ self.now.raised }
    {
        self.raised
    }

    /// The ticks of pause that a hart has before it at a moment, 0 for one that doesn't run.
    pub fn pause(&self, hart: HartId, now: Tick) -> Tick
        requires below { hart.0 < length self.now.harts }
        requires later { self.now.latest ≤ now }
        ensures { result ≡ pause_of (hart_at (at now self.now) hart.0) }
    {
        pause_of(self.seats[usize::from(hart.0)], self.raises, now)
    }

    /// A hart's account at a moment.
    pub fn account(&self, hart: HartId, now: Tick) -> Account
        requires below { hart.0 < length self.now.harts }
        requires later { self.now.latest ≤ now }
        ensures { account_as result ≡ (hart_at (at now self.now) hart.0).account }
    {
        account_of(
            self.seats[usize::from(hart.0)],
            self.raised,
            self.raises,
            now,
        )
    }

    /// Makes these credits equal to others of as many harts.
    pub fn copy_from(&mut self, other: &Credits)
        requires { length self.old.harts ≡ length other.now.harts }
        ensures { self.new ≡ other.now }
    {
        self.seats.copy_from_slice(&other.seats);
        self.latest = other.latest;
        self.raised = other.raised;
        self.raises = other.raises;
    }
}
