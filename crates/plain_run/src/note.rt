//! What is noted after each move of the engine.
ghost use Rattle.std.specs.Prelude.{◌≡◌, ◌<◌, ◌^◌, ℕ, List, None, true, length, suc, IsSome};
ghost use Rattle.coz_types.specs.declared.TheConstants.{HARTS};
ghost use Rattle.machines.specs.Places.{is_among};
ghost use Rattle.ready_ticks.specs.Ready.{Course};
ghost use Rattle.ready_ticks.specs.Waits.{AreTold, Passes, ticks_at, wait_of};
ghost use Rattle.plain_run.specs.Noting.{CanNote, IsNoted};

use ready_ticks::Waits;
use run_engine::{Engine, Event};

/// Notes the harts that enter the line and those that start with the last retirement. `before`
/// harts stood in line before it. Nothing is noted of a retirement that ends the run.
fn note_retired(waits: &mut Waits, engine: &Engine, before: usize)
    requires low { engine.now.ending ≡ None
        → (k : ℕ) → is_among k engine.now.started ≡ true → k < HARTS }
    requires few { engine.now.ending ≡ None
        → (hart : ℕ) → ticks_at engine.now.time (wait_of waits.old hart) < 2 ^ 64 }
    ensures over { IsSome engine.now.ending → waits.new ≡ waits.old }
    ensures told { engine.now.ending ≡ None → (c : Course) (n : ℕ) (entered : List ℕ)
        → AreTold c n waits.old → length (c.line n) ≡ before
        → c.line (suc n) ≡ engine.now.guest.beside.seats.ready
        → Passes c n engine.now.time entered engine.now.started → AreTold c (suc n) waits.new }
{
    if engine.ending().is_none() {
        let started = engine.started();
        let line = engine.guest.ready();
        waits.follow(engine.time(), before, started, line);
    }
}

/// Notes the move that led to this engine. `before` harts stood in line before it. A wake changes
/// no line.
pub fn note(waits: &mut Waits, engine: &Engine, event: Event, before: usize)
    requires { CanNote engine.now event waits.old }
    ensures { IsNoted engine.now event before waits.old waits.new }
{
    match event {
        Event::Woke(_) => {}
        Event::Retired(_) => note_retired(waits, engine, before),
    }
}
