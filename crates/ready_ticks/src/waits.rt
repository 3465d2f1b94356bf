//! What is noted of each hart.
ghost use Rattle.std.specs.Prelude.{◌≡◌, ◌≤◌, ◌<◌, ◌^◌, ◌-◌, ℕ, List, suc, [], map, take, drop, min, length, All, IfOk};
ghost use Rattle.coz_types.specs.declared.TheConstants.{HARTS};
ghost use Rattle.machines.specs.Places.{change, change_each};
ghost use Rattle.ready_ticks.specs.Ready.{Course};
ghost use Rattle.ready_ticks.specs.Waits.{AreTold, Passes, entered_at, never, passed, started_at, stay, ticks_at, wait_of};

use coz_types::{HartId, Tick};
use std::alloc::{AllocError, Global};
use std::marker::Model;
use timing_state::{Places, Ready};

/// What is noted of a hart.
#[derive(Clone, Copy)]
pub struct Wait {
    /// The ticks of its stays in line that are over.
    pub ticks: Tick,
    /// When it entered the line, in net ticks, if it stands in it.
    pub since: Option<Tick>,
}

/// Nothing was noted of a hart.
const NEVER: Wait = Wait {
    ticks: 0,
    since: None,
};

/// How long each hart of a run has stood in line for a core. Contracts see what is noted of each
/// hart, by number. `new` alone can be out of memory.
#[derive(Drop)]
pub struct Waits {
    harts: Places<Wait>,
}

impl Model for Waits {
    ghost use Rattle.std.specs.Prelude.{List};
    ghost use Rattle.ready_ticks.specs.declared.waits.Wait.{Wait};

    ghost Value = { List Wait };

    ghost view = { λ w. w.harts };
}

/// The ticks since a hart entered the line, if it stands in it.
fn stay(since: Option<Tick>, now: Tick) -> Tick
    ensures { result ≡ stay since now }
{
    match since {
        Some(since) => now.saturating_sub(since),
        None => 0,
    }
}

/// The ticks for which a hart has stood in line up to a moment.
fn ticks_at(waits: &Places<Wait>, hart: HartId, now: Tick) -> Tick
    requires few { ticks_at now (wait_of waits.now hart.0) < 2 ^ 64 }
    ensures { result ≡ ticks_at now (wait_of waits.now hart.0) }
{
    let wait = waits.get(hart, NEVER);
    wait.ticks + stay(wait.since, now)
}

/// A hart enters the line.
fn enter(waits: &mut Places<Wait>, hart: HartId, now: Tick)
    requires low { hart.0 < HARTS }
    ensures { waits.new ≡ change never hart.0 (entered_at now) waits.old }
{
    let wait = waits.get(hart, NEVER);
    let entered = Wait {
        ticks: wait.ticks,
        since: Some(now),
    };
    waits.put(hart, entered, NEVER);
}

/// A hart starts.
fn start(waits: &mut Places<Wait>, hart: HartId, now: Tick)
    requires low { hart.0 < HARTS }
    requires few { ticks_at now (wait_of waits.old hart.0) < 2 ^ 64 }
    ensures { waits.new ≡ change never hart.0 (started_at now) waits.old }
{
    let started = Wait {
        ticks: ticks_at(waits, hart, now),
        since: None,
    };
    waits.put(hart, started, NEVER);
}

/// These harts enter the line, in order.
fn enter_each(waits: &mut Places<Wait>, harts: &[HartId], now: Tick)
    requires low { All (λ hart. hart.0 < HARTS) harts.now }
    ensures { waits.new
        ≡ change_each never (map (λ hart. hart.0) harts.now) (λ _. entered_at now) waits.old }
{
    for hart in harts {
        enter(waits, *hart, now);
    }
}

/// These harts start, in order.
fn start_each(waits: &mut Places<Wait>, harts: &[HartId], now: Tick)
    requires low { All (λ hart. hart.0 < HARTS) harts.now }
    requires few { (hart : ℕ) → ticks_at now (wait_of waits.old hart) < 2 ^ 64 }
    ensures { waits.new
        ≡ change_each never (map (λ hart. hart.0) harts.now) (λ _. started_at now) waits.old }
{
    for hart in harts {
        start(waits, *hart, now);
    }
}

/// The harts in line from a place on enter it, in order.
fn enter_from(waits: &mut Places<Wait>, line: &Ready, from: usize, now: Tick)
    ensures { waits.new
        ≡ change_each never (drop from line.now) (λ _. entered_at now) waits.old }
{
    for place in from..line.len() {
        let hart = line.at(place);
        enter(waits, hart, now);
    }
}

impl Waits {
    /// Nobody has stood in line. Fails only if out of memory.
    pub fn new(alloc: Global) -> Result<Waits, AllocError>
        ensures told { IfOk result (λ waits. (c : Course) → c.line 0 ≡ [] → AreTold c 0 waits) }
    {
        Ok(Waits {
            harts: Places::new(alloc, NEVER)?,
        })
    }

    /// The ticks for which a hart has stood in line up to a moment.
    pub fn ticks(&self, hart: HartId, now: Tick) -> Tick
        requires few { ticks_at now (wait_of self.now hart.0) < 2 ^ 64 }
        ensures { result ≡ ticks_at now (wait_of self.now hart.0) }
    {
        ticks_at(&self.harts, hart, now)
    }

    /// After a retirement at a moment: these harts enter the line, and then these start.
    pub fn pass(&mut self, now: Tick, entered: &[HartId], started: &[HartId])
        requires entered { All (λ hart. hart.0 < HARTS) entered.now }
        requires started { All (λ hart. hart.0 < HARTS) started.now }
        requires few { (hart : ℕ) → ticks_at now (wait_of self.old hart) < 2 ^ 64 }
        ensures noted { self.new ≡ passed now (map (λ hart. hart.0) entered.now)
            (map (λ hart. hart.0) started.now) self.old }
        ensures told { (c : Course) (n : ℕ) → AreTold c n self.old
            → Passes c n now (map (λ hart. hart.0) entered.now) (map (λ hart. hart.0) started.now)
            → AreTold c (suc n) self.new }
    {
        enter_each(&mut self.harts, entered, now);
        start_each(&mut self.harts, started, now);
    }

    /// After a retirement at a moment with which these harts start, and which leaves this line.
    /// `before` is how many stood in line before it. A hart that enters the line and starts with
    /// one retirement is ready for no tick, and isn't noted.
    pub fn follow(&mut self, now: Tick, before: usize, started: &[HartId], line: &Ready)
        requires started { All (λ hart. hart.0 < HARTS) started.now }
        requires few { (hart : ℕ) → ticks_at now (wait_of self.old hart) < 2 ^ 64 }
        ensures noted { let left = min (length started.now) before in
            self.new ≡ passed now (drop (before - left) line.now)
            (take left (map (λ hart. hart.0) started.now)) self.old }
        ensures told { (c : Course) (n : ℕ) (entered : List ℕ) → AreTold c n self.old
            → length (c.line n) ≡ before → c.line (suc n) ≡ line.now
            → Passes c n now entered (map (λ hart. hart.0) started.now)
            → AreTold c (suc n) self.new }
    {
        let left = started.len().min(before);
        enter_from(&mut self.harts, line, before - left, now);
        start_each(&mut self.harts, &started[..left], now);
    }
}
