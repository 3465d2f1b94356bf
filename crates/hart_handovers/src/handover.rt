//! A hand-over.
use coz_types::{HartId, Tick};

/// The way in which a hart came to run.
#[derive(Clone, Copy)]
pub enum Way {
    /// The program began with it.
    Start,
    /// Another hart made it.
    Clone,
    /// Another hart woke it.
    Wake,
    /// It had slept until then.
    Sleep,
    /// It had stood in line, and another hart left it a core.
    Core,
}

/// A moment at which a hart began to run.
#[derive(Clone, Copy)]
pub struct Handover {
    /// When, in net ticks.
    pub moment: Tick,
    /// The ticks that the hart had slept until then, if it slept.
    pub slept: Tick,
    /// The hart.
    pub hart: HartId,
    /// The hart that retired or woke then.
    pub by: HartId,
    /// The way in which the hart came to run.
    pub way: Way,
}
