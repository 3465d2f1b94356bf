//! Chains of the instructions of a run, each of which waited for the one ahead of it: the chain
//! that made the run as long as it was, and a check by which anybody can see that no chain of
//! that run is heavier.
#![tactic(auto)]

ghost use Rattle.std.specs.Prelude.{◌≡◌};
ghost use Rattle.path_chains.specs.declared.TheConstants.{MAX_EVENTS};

mod chain;
mod checked;
mod event;
mod segment;
mod share;

pub use chain::longest;
pub use checked::check;
pub use event::{Event, Trace};
pub use segment::{Handover, Segment, after, first_segment, whole_segment};
pub use share::{Share, by_falling_ticks};

/// The most events of a run whose critical path is asked for.
pub const MAX_EVENTS: u64 = 4_000_000;

/// The sizes of this crate, as numbers.
pub fn sizes()
    ensures events { MAX_EVENTS ≡ 4000000 }
{}
