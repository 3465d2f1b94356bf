//! What a run leaves, as the texts are made of it.
use coz_types::{Account, Ending, Outcome, Tick, Visit};

/// The record of a delayed run.
#[derive(Clone, Copy)]
pub struct RunRecord<'a> {
    /// The outcome of the run.
    pub outcome: Outcome,
    /// Of each hart that was made, by number.
    pub accounts: &'a [Account],
    /// The visits of progress points, in their order.
    pub visits: &'a [Visit],
    /// The output of the program.
    pub output: &'a [u8],
}

/// The record of a shortened run.
#[derive(Clone, Copy)]
pub struct ShortRecord<'a> {
    /// The ending of the run.
    pub ending: Ending,
    /// The moment of the last retirement, in ticks.
    pub net: Tick,
    /// The number of retired instructions.
    pub retired: u64,
    /// The number of starts of the selected line.
    pub starts: u64,
    /// With delay 0.
    pub visits: &'a [Visit],
    /// The output of the program.
    pub output: &'a [u8],
}
