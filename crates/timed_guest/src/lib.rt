//! Coz's guest on a machine of the timing model: a guest of which only as many harts run as the
//! machine has cores, and whose instructions cost what they cost there.
//!
//! It is called as the guest alone is. On the usual machine each call is the guest's own.
//!
//! ```text
//! let mut guest = TimedGuest::new(alloc, image, input, limit, layout, index, timing)?;
//! let mut started = HartList::new();
//! guest.next_cycles(HartId(0));                 // what hart 0's next instruction takes
//! guest.retire(HartId(0), 100, &mut started);   // Fate::Goes
//! ```
#![tactic(auto)]

mod guest;
mod lines;

ghost use Rattle.timed_guest.specs.Laws.{CountsGrow, PlainRunsFollow, TimedRunsAreLawful, TimedRunsFollow, UsualGuestsAreAlone};

pub use guest::TimedGuest;

/// The guest keeps the rules of a guest of the machines, on each machine of the timing model.
pub fn timed_runs_are_lawful()
    ensures { TimedRunsAreLawful }
{}

/// On a usual machine the steps of the guest are those of the guest alone, and nothing is kept.
pub fn usual_guests_are_alone()
    ensures { UsualGuestsAreAlone }
{}

/// What a machine counts grows by at most one with each retirement and each wake.
pub fn counts_grow()
    ensures { CountsGrow }
{}

/// On a machine that keeps something the runs and records are those of the guest with the
/// machine's costs, with notes, on cores.
pub fn timed_runs_follow()
    ensures { TimedRunsFollow }
{}

/// On a machine that keeps nothing they are those of the guest with the machine's costs.
pub fn plain_runs_follow()
    ensures { PlainRunsFollow }
{}
