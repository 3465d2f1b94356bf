//! The path of a run, by its hand-overs.
ghost use Rattle.std.specs.Prelude.{◌≡◌, ◌≤◌, length, IfOk};
ghost use Rattle.hart_handovers.specs.Path.{ArePast, IsBegun, Rooted, Tile, back, handover_at, segment};

use crate::{Handover, Way};
use coz_types::{HartId, Tick};
use std::alloc::{AllocError, Global};

/// A part of a path, on one hart.
#[derive(Clone, Copy)]
pub struct Segment {
    /// The hart.
    pub hart: HartId,
    /// When the hart began to run, in net ticks.
    pub from: Tick,
    /// When it handed the path over, or the path ends, in net ticks.
    pub to: Tick,
    /// The way in which it came to run.
    pub way: Way,
    /// The ticks that it had slept until `from`, if it slept. The segment ahead of this one, which
    /// is of the same hart, ends with them.
    pub slept: Tick,
}

/// The segment from a hand-over to a moment.
fn carried(handover: Handover, to: Tick) -> Segment
    ensures { result ≡ segment handover to }
{
    Segment {
        hart: handover.hart,
        from: handover.moment,
        to,
        way: handover.way,
        slept: handover.slept,
    }
}

/// The path back from a hart at the end of a run, in order of time: each segment begins as its hart
/// began to run, and the one ahead of it is of the hart that brought this about. Takes time linear
/// in the hand-overs. Fails only if out of memory.
pub fn path_back(
    alloc: Global,
    handovers: &[Handover],
    hart: HartId,
    end: Tick,
) -> Result<Vec<Segment>, AllocError>
    ensures back { IfOk result (λ path. path.items
        ≡ back handovers.now hart.0 end (length handovers.now)) }
    ensures tile { IfOk result (λ path. Rooted handovers.now
        → IsBegun handovers.now hart.0 (length handovers.now)
        → ArePast handovers.now end (length handovers.now)
        → Tile 0 end path.items) }
{
    let mut path = Vec::new(alloc);
    let mut carrier = hart;
    let mut to = end;
    let mut left = handovers.len();
    while left > 0 {
        left -= 1;
        let handover = handovers[left];
        if handover.hart.0 == carrier.0 {
            path.push(carried(handover, to))?;
            carrier = handover.by;
            to = handover.moment;
        }
    }
    path.reverse();
    Ok(path)
}
