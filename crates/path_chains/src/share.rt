//! The share of a path that a line has, and the order of shares.
ghost use Rattle.std.specs.Prelude.{◌≡◌, IfOk};
ghost use Rattle.profile_labels.specs.Sorted.{sorted_by};
ghost use Rattle.path_chains.specs.Shares.{has_more};

use coz_types::Tick;
use std::alloc::AllocError;
use std::cmp::Reverse;

/// The share of a line: its part of the ticks of a path.
#[derive(Clone, Copy)]
pub struct Share {
    /// The line, by its position.
    pub line: u32,
    /// The ticks of work of its instructions on the path.
    pub ticks: Tick,
}

/// Sorts shares by falling ticks; those with the same ticks stay in their order. Fails only if out
/// of memory.
pub fn by_falling_ticks(shares: &mut Vec<Share>) -> Result<(), AllocError>
    ensures { IfOk result (λ _. shares.new.items ≡ sorted_by has_more shares.old.items) }
{
    shares.sort_by_key(|share| Reverse(share.ticks))?;
    Ok(())
}
