//! What an instruction takes.
ghost use Rattle.std.specs.Prelude.{◌≡◌, ◌≤◌, ◌<◌, ◌*◌, ◌+◌, ◌^◌};
ghost use Rattle.timing_model.specs.Timing.{AreCosts};
ghost use Rattle.timing_steps.specs.Ticks.{timed_cycles, timed_raise, timed_ticks};
ghost use Rattle.timing_steps.specs.declared.ticks.TheConstants.{MAX_TICKS, MAX_TIMED_BUDGET};

use coz_types::{HartId, Tick};
use rv_decode::Instr;
use timing_model::{Costs, is_doubled};

/// The most ticks that an instruction can take: 10,000 cycles, doubled.
pub const MAX_TICKS: Tick = 2_000_000;

/// Upper bound of the budget of a run on a machine of the timing model, in retired instructions:
/// as many take at most 2 * 10^16 ticks.
pub const MAX_TIMED_BUDGET: u64 = 10_000_000_000;

/// A hart's next instruction.
#[derive(Clone, Copy)]
pub struct Instruction {
    /// The hart.
    pub hart: HartId,
    /// How many instructions the hart has retired before it.
    pub count: u64,
    /// The instruction; `None` is a word that encodes none, or that can't be fetched.
    pub instr: Option<Instr>,
}

/// The cycles of an instruction with these costs and this seed of the jitter, 0 for none.
#[inline(always)]
pub fn cycles_of(costs: Costs, seed: u64, next: &Instruction) -> u64
    requires costs { AreCosts costs }
    ensures cycles { result ≡ timed_cycles costs seed next.now.hart.0 next.now.count next.now.instr }
    ensures some { 1 ≤ result }
    ensures few { result ≤ 20000 }
{
    let cycles = costs.cycles(next.instr);
    if is_doubled(seed, u32::from(next.hart.0), next.count) {
        2 * cycles
    } else {
        cycles
    }
}

/// The ticks of an instruction with these costs and this seed of the jitter, 0 for none: 100 for
/// each cycle, and of a selected one fewer by the speedup in per cent. At most `MAX_TICKS`, so
/// that a run of `MAX_TIMED_BUDGET` instructions takes at most 2 * 10^16.
#[inline]
pub fn ticks_of(costs: Costs, seed: u64, next: &Instruction, selected: bool, speedup: u8) -> Tick
    requires costs { AreCosts costs }
    requires speedup { speedup ≤ 100 }
    ensures ticks { result ≡ timed_ticks
        (timed_cycles costs seed next.now.hart.0 next.now.count next.now.instr) selected speedup }
    ensures few { result ≤ MAX_TICKS }
    ensures all { MAX_TIMED_BUDGET * result ≤ 2 * 10 ^ 16 }
{
    let cycles = cycles_of(costs, seed, next);
    if selected {
        cycles * (100 - u64::from(speedup))
    } else {
        100 * cycles
    }
}

/// The ticks by which an instruction raises the delay: those that it takes less if it is selected.
#[inline]
pub fn raise_of(costs: Costs, seed: u64, next: &Instruction, selected: bool, speedup: u8) -> Tick
    requires costs { AreCosts costs }
    requires speedup { speedup ≤ 100 }
    ensures ticks { result ≡ timed_raise
        (timed_cycles costs seed next.now.hart.0 next.now.count next.now.instr) selected speedup }
    ensures few { result ≤ MAX_TICKS }
{
    if selected {
        cycles_of(costs, seed, next) * u64::from(speedup)
    } else {
        0
    }
}
