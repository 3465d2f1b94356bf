//! The text of a critical path: its segments, and how much of it each line has.
#![tactic(auto)]

ghost use Rattle.std.specs.Prelude.{◌≡◌, ◌<◌, ℕ, List, Option, Some};
ghost use Rattle.path_chains.specs.declared.event.Event.{Event};
ghost use Rattle.path_chains.specs.Path.{weight, Sound};
ghost use Rattle.path_chains.specs.Segments.{segments_of, Tile};
ghost use Rattle.path_texts.specs.PathText.{all_shares, events_on};

mod shares;
mod texts;

pub use shares::{Shares, shares_of_path};
pub use texts::{CriticalPath, path_of, write_path};

/// The parts of a chain are its weight: the segments of a sound one lead from 0 to there without
/// gaps, and the shares, of lines, of code without a line and of sleep, add up to it.
pub fn parts_are_whole()
    ensures segments { (events : List Event) (chain : List ℕ) → Sound events chain
        → Tile 0 (weight events chain) (segments_of (events_on events chain)) }
    ensures shares { (events : List Event) (chain : List ℕ) (line_of : ℕ → Option ℕ) (lines : ℕ)
        → ((a line : ℕ) → line_of a ≡ Some line → line < lines)
        → all_shares line_of lines (events_on events chain) ≡ weight events chain }
{}
