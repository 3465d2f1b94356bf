//! A fork's selected harts become due sooner, by what the speedup takes off.

ghost use Rattle.std.specs.Prelude.{◌≡◌, ◌≤◌, map};
ghost use Rattle.coz_types.specs.declared.TheConstants.{MAX_SPEEDUP};
ghost use Rattle.hart_schedule.specs.Keys.{key_of};
ghost use Rattle.virtual_run.specs.Credited.{raise_ticks, AllMade};
ghost use Rattle.virtual_run.specs.Lead.{sooner_by, with_sooner};

use crate::accounts::raised_by;
use coz_types::{HartId, Tick};
use hart_schedule::Schedule;
use run_engine::Engine;
use timed_guest::TimedGuest;

/// Makes the selected harts that began last due sooner. Each is due sooner by the ticks that
/// `speedup` per cent take off its next instruction.
pub fn hasten_selected(engine: &mut Engine, speedup: u8)
    requires made { AllMade engine.old.guest engine.old.selected }
    requires speedup { speedup ≤ MAX_SPEEDUP }
    ensures { engine.new ≡ record engine.old {
      schedule = with_sooner (raise_ticks engine.old.guest speedup)
          engine.old.selected engine.old.schedule;
    } }
{
    hasten_each(
        &mut engine.schedule,
        &engine.guest,
        engine.selected.harts(),
        speedup,
    );
}

/// Makes a hart that is due so `ticks` ticks sooner.
fn hasten(schedule: &mut Schedule, hart: HartId, ticks: Tick)
    ensures { schedule.new ≡ sooner_by (key_of schedule.old hart.0) ticks hart.0 schedule.old }
{
    if let Some(due) = schedule.key(hart) {
        schedule.rekey(hart, due.saturating_sub(ticks));
    }
}

/// Each of these harts is due sooner, by what a speedup in per cent takes off its next
/// instruction.
fn hasten_each(schedule: &mut Schedule, guest: &TimedGuest, harts: &[HartId], speedup: u8)
    requires made { AllMade guest.now (map (λ hart. hart.0) harts.now) }
    requires speedup { speedup ≤ MAX_SPEEDUP }
    ensures { schedule.new ≡ with_sooner (raise_ticks guest.now speedup)
        (map (λ hart. hart.0) harts.now) schedule.old }
{
    for hart in harts {
        hasten(schedule, *hart, raised_by(guest, *hart, speedup));
    }
}
