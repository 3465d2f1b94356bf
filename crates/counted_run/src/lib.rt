//! One run that counts, for each line, how many of its instructions are begun, and their ticks of
//! work.
//!
//! No line is selected, and nothing is delayed. A line starts as often here as in the run that
//! selects it at speedup 0, so one run replaces a run for each line. It is a run on a machine of
//! the timing model.
#![tactic(auto)]

mod beginning;
mod counted;

pub use counted::Counted;
