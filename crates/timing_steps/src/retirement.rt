//! A retirement, as the guest does it.

use coz_types::{HartId, LineId, Tick};
use machines::Fate;

/// The retirement of a hart's instruction, as the guest does it.
#[derive(Clone, Copy)]
pub struct Retirement {
    /// The hart.
    pub hart: HartId,
    /// The net time (ticks).
    pub moment: Tick,
    /// The line of the instruction, if its address has one.
    pub line: Option<LineId>,
    /// The instruction was the call sched_yield.
    pub gives_up: bool,
    /// What became of the hart by its guest.
    pub fate: Fate,
}
