//! The run of a program with no line selected on a machine of the timing model, and for how many
//! ticks each of its harts was ready: it could run, and stood in line for a core.
//!
//! ```text
//! let run = plain_run(alloc, image, &index, &points, timing, input, choice)?;
//! run.outcome.time;   // the ticks of the run
//! run.ready[1];       // those for which hart 1 could run and had no core
//! ```
#![tactic(auto)]

ghost use Rattle.plain_run.specs.Laws.{PlainRunsAreOnCores, PlainRunsAreUndelayed};

mod note;
mod run;
mod walk;

pub use run::{PlainRun, plain_run};

/// What a run of the engine on a machine says of its harts, how many there are and for how long
/// each was ready, is what the run of the guest with the machine's costs, with notes, on cores says
/// of them.
pub fn plain_runs_are_on_cores()
    ensures { PlainRunsAreOnCores }
{}

/// On each machine the delayed machine delays nothing if no line is selected: what it leaves is
/// what the shortened machine leaves, with delays and accounts of 0.
pub fn plain_runs_are_undelayed()
    ensures { PlainRunsAreUndelayed }
{}
