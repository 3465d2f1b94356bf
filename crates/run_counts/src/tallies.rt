//! What was begun of each line.
ghost use Rattle.std.specs.Prelude.{◌≡◌, ◌+◌, ◌^◌, ◌≤◌, ◌<◌, length, option_map, IfOk, IfSome};
ghost use Rattle.run_counts.specs.Counts.{counts_of, no_counts, place_in, with_one, IsWithin};

use coz_types::{LineId, Tick};
use std::alloc::{AllocError, Global};

/// The instructions of a line that a run began: their number and their cost.
#[derive(Clone, Copy)]
pub struct Tally {
    /// The number of instructions of the line that were begun.
    pub starts: u64,
    /// Their work, in ticks.
    pub cost: Tick,
}

/// A tally for each line, and one for code without a line.
#[derive(Drop)]
pub struct Tallies {
    /// By the position of the line.
    pub lines: Vec<Tally>,
    /// The work of code that has no line, in ticks.
    pub none: Tick,
    /// All work, in ticks.
    pub all: Tick,
    /// The number of instructions that were begun in all.
    pub begun: u64,
}

/// Nothing was begun of this many lines. Takes 16 bytes for each. Fails only if out of memory.
pub fn no_tallies(alloc: Global, count: u32) -> Result<Tallies, AllocError>
    ensures { IfOk result (λ tallies. counts_of tallies ≡ no_counts count) }
{
    let none = Tally { starts: 0, cost: 0 };
    let lines = vec![in alloc; none; count as usize]?;
    Ok(Tallies {
        lines,
        none: 0,
        all: 0,
        begun: 0,
    })
}

/// The position of a line among this many; None if it is not one of them.
fn place_of(line: Option<LineId>, count: usize) -> Option<usize>
    ensures { result ≡ place_in count (option_map (λ line. line.0) line) }
{
    match line {
        Some(line) => {
            let position = line.0 as usize;
            if position < count {
                Some(position)
            } else {
                None
            }
        }
        None => None,
    }
}

/// Adds an instruction to the tally at a position, or to no tally.
fn add_at(tallies: &mut Tallies, position: Option<usize>, cost: Tick)
    requires position { IfSome position (λ k. k < length tallies.old.lines.items) }
    requires room { tallies.old.all + cost < 2 ^ 64 }
    requires within { IsWithin (counts_of tallies.old) }
    requires few { tallies.old.begun < 2 ^ 50 }
    ensures { counts_of tallies.new ≡ with_one position cost (counts_of tallies.old) }
{
    tallies.begun += 1;
    tallies.all += cost;
    match position {
        Some(position) => {
            let old = tallies.lines[position];
            tallies.lines[position] = Tally {
                starts: old.starts + 1,
                cost: old.cost + cost,
            };
        }
        None => tallies.none += cost,
    }
}

/// Adds an instruction of a line, or of no line, which takes `cost` ticks. All work together is to
/// stay below 2^64 ticks.
pub fn add(tallies: &mut Tallies, line: Option<LineId>, cost: Tick)
    requires room { tallies.old.all + cost < 2 ^ 64 }
    requires within { IsWithin (counts_of tallies.old) }
    requires few { tallies.old.begun < 2 ^ 50 }
    ensures { counts_of tallies.new
        ≡ with_one (place_in (length tallies.old.lines.items) (option_map (λ line. line.0) line))
        cost (counts_of tallies.old) }
{
    let position = place_of(line, tallies.lines.len());
    add_at(tallies, position, cost);
}
