//! The chain that is shown of a run.
ghost use Rattle.std.specs.Prelude.{◌≡◌, ◌≤◌, List, ℕ, IfOk};
ghost use Rattle.path_chains.specs.Path.{weight, chain_of, IsChain, Sound, Linked};

use crate::{Event, Trace};
use std::alloc::{AllocError, Global};

/// The chain of a run, back along `from` from its last event, and so one of its heaviest.
/// Allocates one number for each event. Fails only if out of memory.
pub fn longest(alloc: Global, trace: &Trace) -> Result<Vec<u32>, AllocError>
    requires { Linked trace.now.events }
    ensures chain { IfOk result (λ chain. chain.items ≡ chain_of trace.now.events) }
    ensures sound { IfOk result (λ chain. Sound trace.now.events chain.items) }
    ensures heaviest { IfOk result (λ chain. (other : List ℕ) → IsChain trace.now.events other
        → weight trace.now.events other ≤ weight trace.now.events chain.items) }
{
    let events = trace.events.as_slice();
    let mut number = events.len() as u32 - 1;
    let mut chain = vec![in alloc; number; events.len()]?;
    let mut count = 1;
    while let Some(from) = events[number as usize].from {
        number = from;
        chain[count] = number;
        count += 1;
    }
    chain.truncate(count);
    chain.reverse();
    Ok(chain)
}
