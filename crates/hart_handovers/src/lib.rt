//! The hand-overs of a run: each time that a hart begins to run, with the hart that brought this
//! about; and the path back from the end of the run, from hand-over to hand-over.
//!
//! A hart runs on from instruction to instruction, so its hand-overs tell how it came to run at
//! each moment. There are far fewer of them than instructions.
#![tactic(auto)]

ghost use Rattle.hart_handovers.specs.Laws.{HandoversAreWhole};

mod handover;
mod path;

pub use handover::{Handover, Way};
pub use path::{Segment, path_back};

/// If each change of a run was brought about by a hart that had run, the hand-overs of its changes
/// lead back to the start: the first is at 0, each later one comes from a hart with an earlier one,
/// and each hart that has run has one.
pub fn handovers_are_whole()
    ensures { HandoversAreWhole }
{}
