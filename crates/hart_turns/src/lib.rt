//! What is noted of each hart of a run as it goes on, with one call for each retirement and each
//! wake: the ticks that it runs, waits, sleeps and is ready, the intervals in which it does, and
//! the hand-overs.
//!
//! A call touches only the harts that retire, wake, are made, are woken or get a core. The first
//! intervals and hand-overs are kept, as many as there is room for; the ticks are whole all the
//! same.
//!
//! ```text
//! let mut turns = Turns::new(alloc, Rooms { intervals: 1000, handovers: 1000 })?;
//! turns.retire(retirement, &[HartId(1)], &[HartId(1)]);    // makes hart 1, which gets a core
//! turns.wake(woken);                                       // a sleeping hart wakes
//! turns.ticks(HartId(1), 900);
//! ```
#![tactic(auto)]

mod firsts;
mod life;
mod turns;

pub use life::Ticks;
pub use turns::{Retirement, Rooms, Turns, Woken};
