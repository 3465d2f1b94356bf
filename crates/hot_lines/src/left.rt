//! What a run that counts leaves.
ghost use Rattle.std.specs.Prelude.{◌≡◌, ◌≤◌, All};
ghost use Rattle.coz_types.specs.declared.record.Visit.{Visit};
ghost use Rattle.hot_lines.specs.declared.lines.HotLine.{HotLine};

use crate::lines::HotLine;
use coz_types::{Ending, Items, Tick, Visit};

/// The record of a run with no line selected, and the lines that cost most in it.
#[derive(Drop)]
pub struct HotRun {
    /// The ending of the run.
    pub ending: Ending,
    /// The visits of progress points, in order, each with a delay of 0.
    pub visits: Items<Visit>,
    /// The lines that cost most, by falling cost, and then in the order of lines.
    pub lines: Items<HotLine>,
    /// The work of code that has no line, in ticks.
    pub none: Tick,
    /// All work, in ticks.
    pub all: Tick,
    ghost undelayed: { All (λ (visit : Visit). visit.delay ≡ 0) visits },
    ghost within: { All (λ (line : HotLine). line.cost ≤ all) lines },
    ghost none_within: { none ≤ all },
}
