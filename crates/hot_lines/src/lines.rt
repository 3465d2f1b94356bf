//! Lines with what was begun of them, and their order.
ghost use Rattle.std.specs.Prelude.{◌≡◌, ◌≤◌, ◌++◌, ℕ, [], ◌∷◌, if◌then◌else◌, All, IfOk, OnOk};
ghost use Rattle.hot_lines.specs.Lines.{has_started, rank};

use coz_types::Tick;
use std::alloc::AllocError;
use std::cmp::Reverse;

/// The instructions of a line that a run began: their number and their cost.
#[derive(Clone, Copy)]
pub struct HotLine {
    /// The line, by its position.
    pub line: u32,
    /// The number of instructions of the line that were begun.
    pub starts: u64,
    /// Their work, in ticks.
    pub cost: Tick,
}

/// Appends a line if some of its instructions were begun. Fails only if out of memory.
pub fn push_started(lines: &mut Vec<HotLine>, line: HotLine) -> Result<(), AllocError>
    ensures { OnOk result (lines.new.items
        ≡ lines.old.items ++ (if has_started line then line ∷ [] else [])) }
{
    if line.starts > 0 {
        lines.push(line)?;
    }
    Ok(())
}

/// Sorts lines by falling cost, and those of one cost in the order that they had.
/// Fails only if out of memory.
pub fn ranked(mut lines: Vec<HotLine>) -> Result<Vec<HotLine>, AllocError>
    ensures ranked { IfOk result (λ ranked. ranked.items ≡ rank lines.items) }
    ensures within { (most : ℕ) → All (λ (line : HotLine). line.cost ≤ most) lines.items
        → IfOk result (λ ranked. All (λ (line : HotLine). line.cost ≤ most) ranked.items) }
{
    lines.sort_by_key(|line| Reverse(line.cost))?;
    Ok(lines)
}
