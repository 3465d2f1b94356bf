//! The events of a run, which are its retirements: for each the event that started its hart for
//! it, or began its sleep, and the hart's own event before.
#![tactic(auto)]

mod recording;
mod walked;

ghost use Rattle.critical_path.specs.Laws.{UsualEventsAreAlone};

pub use walked::{walk, walk_on};

/// On a usual machine the events of a run are those of the guest alone.
pub fn usual_events_are_alone()
    ensures { UsualEventsAreAlone }
{}
