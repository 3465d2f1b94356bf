//! What a machine of the timing model keeps beside its guest: the notes of each hart, who has a
//! core, and who stands in line for one.
//!
//! The guest runs on as it does without them. An engine calls `retire` after each retirement of
//! the guest and `wake` after each wake; `timing_steps` says what the two come to together.
//!
//! ```text
//! let mut state = TimingState::new(alloc, timing)?;
//! state.ticks(HartId(0), instr, false, 0);           // what hart 0's next instruction takes
//! let fate = guest.retire(hart, net, &mut others);   // the guest's own fate
//! let fate = state.retire(&retirement, &mut others); // on the cores of the machine
//! ```
#![tactic(auto)]

mod jitter;
mod notes;
mod places;
mod ready;
mod seats;
mod state;
mod turn;

pub use jitter::Jitter;
pub use notes::Note;
pub use places::Places;
pub use ready::Ready;
pub use seats::Seats;
pub use state::TimingState;
