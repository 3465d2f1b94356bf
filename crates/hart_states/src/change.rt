//! A change of what a hart does, and an interval between two.
use coz_types::{HartId, Tick};

/// What a hart does that was made.
#[derive(Clone, Copy)]
pub enum Activity {
    /// It runs: it has a core, and its next instruction is begun.
    Running,
    /// It waits until another hart wakes it.
    Waiting,
    /// It sleeps until a moment.
    Sleeping,
    /// It could run, and stands in line for a core.
    Ready,
    /// It has exited.
    Gone,
}

/// A change of what a hart does.
#[derive(Clone, Copy)]
pub struct Change {
    /// The hart.
    pub hart: HartId,
    /// What it does from then on.
    pub to: Activity,
    /// When, in net ticks.
    pub moment: Tick,
    /// The hart that retired or woke then, and so brought the change about.
    pub by: HartId,
    /// Where that hart was, as the caller numbers places.
    pub place: u32,
}

/// What a hart does from one change to the next.
#[derive(Clone, Copy)]
pub struct Interval {
    /// The change that it begins with.
    pub from: Change,
    /// The change that it ends with, of the same hart.
    pub to: Change,
}
