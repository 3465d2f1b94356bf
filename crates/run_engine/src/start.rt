//! How harts begin their next instructions.

ghost use Rattle.std.specs.Prelude.{◌≡◌, ◌+◌, ◌^◌, ◌≤◌, ◌<◌, ◌++◌, [], ◌∷◌, length, map, if◌then◌else◌, IsTrue};
ghost use Rattle.coz_types.specs.declared.TheConstants.{MAX_SPEEDUP, HARTS};
ghost use Rattle.timing_steps.specs.Ticks.{timed_ticks};
ghost use Rattle.timing_steps.specs.declared.ticks.TheConstants.{MAX_TICKS};
ghost use Rattle.hart_schedule.specs.Keys.{with_key, without_key};
ghost use Rattle.machines.specs.Guest.{goes_on};
ghost use Rattle.timed_guest.specs.Guest.{IsMade};
ghost use Rattle.run_engine.specs.Begin.{last_moment, many, IsIdle, AreIdle, AreBegun};
ghost use Rattle.run_engine.specs.Run.{is_selected_in, selected_of, ticks_in};

use crate::Setting;
use coz_types::{HartId, Tick};
use guest_calls::Fate;
use guest_futex::HartList;
use hart_schedule::Schedule;
use timed_guest::TimedGuest;

/// The ticks of a hart's next instruction, and whether it has the selected line or is charged to it.
#[derive(Clone, Copy, Drop)]
pub(crate) struct Cost {
    pub(crate) ticks: Tick,
    pub(crate) selected: bool,
}

/// The cost of a hart's next instruction, which takes this many cycles, selected or not.
#[inline(always)]
fn cost_by(setting: &Setting, cycles: u64, selected: bool) -> Cost
    requires speedup { setting.now.choice.speedup ≤ MAX_SPEEDUP }
    requires few { cycles ≤ 20000 }
    ensures ticks { result.ticks ≡ timed_ticks cycles selected setting.now.choice.speedup }
    ensures selected { result.selected ≡ selected }
    ensures few { result.ticks ≤ MAX_TICKS }
{
    if selected {
        Cost {
            ticks: cycles * (100 - u64::from(setting.choice.speedup)),
            selected: true,
        }
    } else {
        Cost {
            ticks: 100 * cycles,
            selected: false,
        }
    }
}

/// The cost of a hart's next instruction.
#[inline(always)]
fn cost_of(setting: &Setting, guest: &TimedGuest, hart: HartId) -> Cost
    requires made { IsMade guest.now hart.0 }
    requires speedup { setting.now.choice.speedup ≤ MAX_SPEEDUP }
    ensures ticks { result.ticks ≡ ticks_in setting.now guest.now hart.0 }
    ensures selected { result.selected ≡ is_selected_in setting.now guest.now hart.0 }
    ensures few { result.ticks ≤ MAX_TICKS }
{
    let cycles = guest.next_cycles(hart);
    let selected = guest.is_selected(hart, setting.choice.selected);
    cost_by(setting, cycles, selected)
}

/// `cost_of`, without asking whether the machine is the usual one.
#[inline(always)]
pub(crate) fn cost_on(setting: &Setting, guest: &TimedGuest, hart: HartId) -> Cost
    requires made { IsMade guest.now hart.0 }
    requires speedup { setting.now.choice.speedup ≤ MAX_SPEEDUP }
    ensures ticks { result.ticks ≡ ticks_in setting.now guest.now hart.0 }
    ensures selected { result.selected ≡ is_selected_in setting.now guest.now hart.0 }
    ensures few { result.ticks ≤ MAX_TICKS }
{
    let cycles = guest.cycles_on(hart);
    let selected = guest.is_selected_on(hart, setting.choice.selected);
    cost_by(setting, cycles, selected)
}

/// Appends a hart, if it is selected.
#[inline]
pub fn add_if(selected: bool, harts: &mut HartList, hart: HartId)
    requires { length harts.old < HARTS }
    ensures { harts.new ≡ (if selected then harts.old ++ hart.0 ∷ [] else harts.old) }
{
    if selected {
        harts.push(hart);
    }
}

/// Begins a hart's next instruction at a moment. If it has the selected line, the hart is appended
/// to the selected ones.
#[inline(never)]
pub fn begin(
    setting: &Setting,
    guest: &TimedGuest,
    schedule: &mut Schedule,
    selected: &mut HartList,
    hart: HartId,
    moment: Tick,
)
    requires idle { IsIdle guest.now schedule.old hart.0 }
    requires moment { moment ≤ last_moment }
    requires speedup { setting.now.choice.speedup ≤ MAX_SPEEDUP }
    requires few { length selected.old < HARTS }
    ensures due { schedule.new
        ≡ with_key hart.0 (moment + ticks_in setting.now guest.now hart.0) schedule.old }
    ensures selected { selected.new
        ≡ selected.old ++ selected_of setting.now guest.now (hart.0 ∷ []) }
{
    let cost = cost_of(setting, guest, hart);
    add_if(cost.selected, selected, hart);
    schedule.put(hart, moment + cost.ticks);
}

/// Begins the next instruction of the hart that retired or woke, at a moment:
/// the hart gets another key in the schedule.
#[inline(always)]
pub fn begin_next(
    setting: &Setting,
    guest: &TimedGuest,
    schedule: &mut Schedule,
    selected: &mut HartList,
    hart: HartId,
    moment: Tick,
)
    requires idle { IsIdle guest.now (without_key hart.0 schedule.old) hart.0 }
    requires moment { moment ≤ last_moment }
    requires speedup { setting.now.choice.speedup ≤ MAX_SPEEDUP }
    requires few { length selected.old < HARTS }
    ensures due { schedule.new ≡ with_key hart.0 (moment + ticks_in setting.now guest.now hart.0)
        (without_key hart.0 schedule.old) }
    ensures selected { selected.new
        ≡ selected.old ++ selected_of setting.now guest.now (hart.0 ∷ []) }
{
    let cost = cost_of(setting, guest, hart);
    add_if(cost.selected, selected, hart);
    schedule.rekey(hart, moment + cost.ticks);
}

/// Begins the next instruction of the hart that retired, at that moment, if the hart goes on.
#[inline(always)]
pub fn begin_again(
    setting: &Setting,
    guest: &TimedGuest,
    schedule: &mut Schedule,
    selected: &mut HartList,
    hart: HartId,
    fate: Fate,
    moment: Tick,
)
    requires idle { IsTrue (goes_on fate)
        → IsIdle guest.now (without_key hart.0 schedule.old) hart.0 }
    requires moment { moment ≤ last_moment }
    requires speedup { setting.now.choice.speedup ≤ MAX_SPEEDUP }
    requires selected { selected.old ≡ [] }
    ensures due { schedule.new
        ≡ (if goes_on fate then with_key hart.0 (moment + ticks_in setting.now guest.now hart.0)
        (without_key hart.0 schedule.old) else schedule.old) }
    ensures selected { selected.new
        ≡ (if goes_on fate then selected_of setting.now guest.now (hart.0 ∷ []) else []) }
{
    match fate {
        Fate::Goes => begin_next(setting, guest, schedule, selected, hart, moment),
        _ => {}
    }
}

/// The next instructions of these harts begin at a moment.
pub fn begin_each(
    setting: &Setting,
    guest: &TimedGuest,
    schedule: &mut Schedule,
    selected: &mut HartList,
    harts: &[HartId],
    moment: Tick,
)
    requires idle { AreIdle guest.now schedule.old (map (λ hart. hart.0) harts.now) }
    requires moment { moment ≤ last_moment }
    requires speedup { setting.now.choice.speedup ≤ MAX_SPEEDUP }
    requires room { length schedule.old ≡ HARTS }
    requires few { length selected.old ≤ many schedule.old }
    ensures begun { AreBegun (ticks_in setting.now guest.now) moment
        (map (λ hart. hart.0) harts.now) schedule.old schedule.new }
    ensures selected { selected.new
        ≡ selected.old ++ selected_of setting.now guest.now (map (λ hart. hart.0) harts.now) }
    ensures room { length schedule.new ≡ HARTS }
    ensures few { length selected.new + many schedule.old
        ≤ length selected.old + many schedule.new }
{
    for hart in harts {
        begin(setting, guest, schedule, selected, *hart, moment);
    }
}
