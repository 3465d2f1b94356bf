//! The run to its end.
ghost use Rattle.std.specs.Prelude.{◌≡◌, ℕ, List, [], IsSome};
ghost use Rattle.coz_types.specs.Image.{ImageParts};
ghost use Rattle.run_engine.specs.Engine.{IsFirst};
ghost use Rattle.run_engine.specs.Run.{IsSetting};
ghost use Rattle.ready_ticks.specs.Ready.{Course};
ghost use Rattle.ready_ticks.specs.Waits.{AreTold};
ghost use Rattle.plain_run.specs.Noting.{IsFirstOfSome, IsWalked};

use crate::note::note;
use ready_ticks::Waits;
use run_engine::{Engine, Setting};

/// Runs an engine that begins a run to its end, and notes for how long each hart is ready.
pub fn walk(engine: &mut Engine, setting: &Setting, waits: &mut Waits)
    requires setting { IsSetting setting.now }
    requires first { IsFirstOfSome setting.now engine.old }
    requires told { (c : Course) → c.line 0 ≡ [] → AreTold c 0 waits.old }
    ensures walked { (image : ImageParts) (input : List ℕ)
        → IsFirst setting.now image input engine.old
        → IsWalked image input setting.now engine.new waits.new }
    ensures ended { IsSome engine.new.ending }
{
    while engine.ending().is_none() {
        let before = engine.guest.ready().len();
        let event = engine.advance(setting, 0);
        note(waits, engine, event, before);
    }
}
