//! The harts that wait at addresses, the oldest first.
ghost use Rattle.std.specs.Prelude.{◌≡◌, ◌≢◌, ◌+◌, ◌<◌, ◌≤◌, [], ◌++◌, length, take, All, IfOk};
ghost use Rattle.guest_futex.specs.Waiters.{with_waiter, woken_harts, waiters_left};
ghost use Rattle.guest_futex.specs.Apart.{AreApart};
ghost use Rattle.guest_futex.specs.Held.{waiters_of};

use crate::HartList;
use coz_types::{Address, HARTS, HartId};
use std::alloc::{AllocError, Global};
use std::marker::Model;

/// A waiting hart and its address.
#[derive(Clone, Copy, Drop)]
struct Waiting {
    address: Address,
    hart: HartId,
}

/// Up to `HARTS` harts that each wait for one address.
///
/// Contracts see the list of the waiters, the oldest first. `new` alone can be out of memory.
#[derive(Drop)]
pub struct Queue {
    // The oldest first.
    waiters: Vec<Waiting>,
}

impl Model for Queue {
    ghost use Rattle.std.specs.Prelude.{◌≤◌, List};
    ghost use Rattle.std.specs.Vec.{vec_capacity};
    ghost use Rattle.coz_types.specs.declared.TheConstants.{HARTS};
    ghost use Rattle.guest_futex.specs.Waiters.{Waiter};
    ghost use Rattle.guest_futex.specs.Apart.{AreApart};
    ghost use Rattle.guest_futex.specs.Held.{waiters_of};

    ghost Value = { List Waiter };

    ghost view = { λ q. waiters_of q.waiters.items };

    ghost invariant = { λ q.
        AreApart (waiters_of q.waiters.items) × (HARTS ≤ vec_capacity q.waiters) };
}

/// Appends the harts of the oldest waiters for an address to a list, at most `count`,
/// and moves those that are left to the front. Returns how many are left.
fn take_eldest(waiters: &mut [Waiting], address: Address, count: u32, into: &mut HartList) -> usize
    requires apart { AreApart (waiters_of waiters.old) }
    requires room { length into.old
        + length (woken_harts address (waiters_of waiters.old) count) ≤ HARTS }
    ensures woken { into.new ≡ into.old ++ woken_harts address (waiters_of waiters.old) count }
    ensures left { waiters_of (take result waiters.new)
        ≡ waiters_left address (waiters_of waiters.old) count }
{
    let mut wanted = count;
    let mut kept = 0;
    for i in 0..waiters.len() {
        let waiting = waiters[i];
        if wanted > 0 && waiting.address == address {
            into.push(waiting.hart);
            wanted -= 1;
        } else {
            waiters[kept] = waiting;
            kept += 1;
        }
    }
    kept
}

impl Queue {
    /// No waiters, with room for `HARTS` of them. Err: out of memory.
    pub fn new(alloc: Global) -> Result<Queue, AllocError>
        ensures { IfOk result (λ queue. queue ≡ []) }
    {
        Ok(Queue {
            waiters: Vec::with_capacity(alloc, HARTS)?,
        })
    }

    /// Lets a hart wait at an address, as the youngest waiter.
    pub fn wait(&mut self, address: Address, hart: HartId)
        requires low { hart.0 < HARTS }
        requires apart { All (λ waiter. waiter.hart ≢ hart.0) self.old }
        ensures { self.new ≡ with_waiter address hart.0 self.old }
    {
        let Ok(()) = self.waiters.push(Waiting { address, hart }) else {
            unreachable!()
        };
    }

    /// Takes the oldest waiters for an address, at most `count`, and appends them to a list.
    pub fn wake(&mut self, address: Address, count: u32, into: &mut HartList)
        requires { length into.old + length (woken_harts address self.old count) ≤ HARTS }
        ensures woken { into.new ≡ into.old ++ woken_harts address self.old count }
        ensures left { self.new ≡ waiters_left address self.old count }
    {
        let kept = take_eldest(&mut self.waiters, address, count, into);
        self.waiters.truncate(kept);
    }

    /// Makes these waiters equal to others.
    pub fn copy_from(&mut self, other: &Queue)
        ensures { self.new ≡ other.now }
    {
        self.waiters.clear();
        let Ok(()) = self.waiters.extend_from_slice(&other.waiters) else {
            unreachable!()
        };
    }
}
