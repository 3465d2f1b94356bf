//! The ticks for which the harts of a run on cores were ready: they could run, and stood in line
//! for a core.
//!
//! A run tells at each retirement which harts enter the line and which start. Only those are
//! touched, so a run of any number of harts costs a constant for each hart that enters or starts.
//!
//! ```text
//! let mut waits = Waits::new(alloc)?;
//! waits.pass(400, &[HartId(1)], &[]);    // hart 1 enters the line at 400 ticks
//! waits.pass(900, &[], &[HartId(1)]);    // and has a core from 900 on
//! waits.ticks(HartId(1), 1000);          // 500
//! ```
#![tactic(auto)]

ghost use Rattle.ready_ticks.specs.Laws.{NobodyIsReady, NotesTellTheNext, RunsPass, TheLineMoves};

mod waits;

use timing_laws::{Counted, Lawful};
pub use waits::{Wait, Waits};

/// With a core for each hart that may run, no hart is ever ready.
pub fn nobody_is_ready<G: Counted>()
    ensures { NobodyIsReady G.experiment G.limit }
{}

/// What is noted before a move tells the ticks up to the moment of that move, also of the move that
/// ends the run.
pub fn notes_tell_the_next()
    ensures { NotesTellTheNext }
{}

/// At each retirement from which a run goes on the line moves: harts enter at its end, and others
/// start from its head.
pub fn the_line_moves()
    ensures { TheLineMoves }
{}

/// Each move after which a run on cores goes on passes harts into the line and out of it, as `Waits`
/// notes them: those that the guest makes or wakes and the one that gives its core up, and those
/// that start.
pub fn runs_pass<G: Lawful>()
    ensures { RunsPass G.experiment }
{}
