//! What a machine of the timing model keeps beside its guest, as definitions with their laws, and
//! what an instruction takes on it.
//!
//! The state is the notes of each hart, who has a core, and who stands in line for one. The guest
//! runs on as it does without them; `specs/State.antt` says what its retirements and wakes do to
//! the state.
//!
//! ```text
//! let next = Instruction { hart: HartId(0), count: 0, instr: Some(Instr::Ecall) };
//! ticks_of(Costs::usual(), 0, &next, false, 0); // 4,000
//! ticks_of(Costs::usual(), 0, &next, true, 50); // 2,000
//! ```
#![tactic(auto)]

mod retirement;
mod ticks;

ghost use Rattle.timing_steps.specs.State.{LineHasRoom, StepsAreTheGuests};

pub use retirement::Retirement;
pub use ticks::{Instruction, MAX_TICKS, MAX_TIMED_BUDGET, cycles_of, raise_of, ticks_of};
use timing_laws::{Lawful, Numbered};

/// The first state beside the first of a guest is the first of the guest with notes, on cores; and a
/// step of the state beside a step of the guest is a step of that guest.
pub fn steps_are_the_guests<G: Lawful>()
    ensures { StepsAreTheGuests G.experiment }
{}

/// There is room in the line for the harts that a retirement makes or wakes, and for the hart that
/// retires.
pub fn line_has_room<G: Numbered>()
    ensures { LineHasRoom G.experiment.guest G.good G.below }
{}
