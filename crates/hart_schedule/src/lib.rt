//! The schedule: which hart is due first.
//!
//! ```text
//! let mut schedule = Schedule::new(alloc, 2)?;
//! schedule.put(HartId(0), 300);
//! schedule.put(HartId(1), 200);
//! schedule.least();          // Some(HartId(1))
//! schedule.take(HartId(1));  // Some(200)
//! ```
#![tactic(auto)]

mod entry;
mod heap;

ghost use Rattle.std.specs.Prelude.{◌≡◌, ℕ, ◌<◌, ◌≤◌, ◌^◌, length, replicate, IfOk, IfSome, MatchOption};
ghost use Rattle.coz_types.specs.declared.TheConstants.{HARTS};
ghost use Rattle.hart_schedule.specs.Keys.{key_of, with_key, without_key, IsEmpty, IsLeast};

use crate::entry::{contender_of, entry_of};
use crate::heap::{earlier_below, refill, rise, sink, slot_of};
use coz_types::{HartId, Tick};
pub use entry::Contender;
use std::alloc::{AllocError, Global};
use std::marker::Model;

/// The harts that are due, each with its key, out of a number of harts that is given at making.
///
/// Contracts see the list of the keys by the numbers of the harts. `new` alone takes memory.
/// `first`, `second` and `least` read the top of a heap. `put` and `rekey_first` move entries along
/// one path between a slot and the root or a leaf. What is asked of any hart but the first looks
/// for it in the whole heap.
#[derive(Drop)]
pub struct Schedule {
    // The heap: slot 1 is the root, 2 k and 2 k + 1 are below k, and slot 0 is not used.
    entries: Vec<u64>,
    count: usize,
}

impl Model for Schedule {
    ghost use Rattle.hart_schedule.specs.Heap.{keys_of, IsSchedule};
    ghost use Rattle.std.specs.Prelude.{List, ℕ, Option};

    ghost Value = { List (Option ℕ) };

    ghost view = { λ s. keys_of s.entries.items s.count };

    ghost invariant = { λ s. IsSchedule (keys_of s.entries.items s.count)
        s.entries.items s.count };
}

impl Schedule {
    /// An empty schedule of 1 to `HARTS` harts. Err if there is no memory for the heap.
    pub fn new(alloc: Global, harts: u32) -> Result<Schedule, AllocError>
        requires some { 1 ≤ harts }
        requires few { harts ≤ HARTS }
        ensures { IfOk result (λ schedule. schedule ≡ replicate harts None) }
    {
        Ok(Schedule {
            entries: vec![in alloc; 0; harts as usize + 1]?,
            count: 0,
        })
    }

    /// Puts a hart into the schedule, with a key below 2^56.
    pub fn put(&mut self, hart: HartId, key: Tick)
        requires below { hart.0 < length self.old }
        requires absent { key_of self.old hart.0 ≡ None }
        requires key { key < 2 ^ 56 }
        ensures { self.new ≡ with_key hart.0 key self.old }
    {
        self.count += 1;
        rise(&mut self.entries, self.count, entry_of(key, hart));
    }

    /// The hart with the least key, among equal keys the least-numbered one; None exactly
    /// if the schedule is empty.
    #[inline]
    pub fn least(&self) -> Option<HartId>
        ensures { MatchOption result (IsEmpty self.now) (λ hart. IsLeast self.now hart.0) }
    {
        match self.first() {
            None => None,
            Some(first) => Some(first.hart),
        }
    }

    /// The hart that is due first, with its key. None exactly if the schedule is empty.
    #[inline]
    pub fn first(&self) -> Option<Contender>
        ensures { MatchOption result (IsEmpty self.now) (λ first.
            IsLeast self.now first.hart.0 × (key_of self.now first.hart.0 ≡ Some first.key)) }
    {
        if self.count == 0 {
            None
        } else {
            Some(contender_of(self.entries[1]))
        }
    }

    /// The hart that is due next after the first one, with its key. None exactly if the schedule
    /// has fewer than two harts.
    #[inline]
    pub fn second(&self) -> Option<Contender>
        ensures none { IsEmpty self.now → result ≡ None }
        ensures next { (first : ℕ) → IsLeast self.now first
            → MatchOption result (IsEmpty (without_key first self.now))
            (λ second. IsLeast (without_key first self.now) second.hart.0
            × (key_of (without_key first self.now) second.hart.0 ≡ Some second.key)) }
    {
        if self.count < 2 {
            None
        } else {
            Some(contender_of(self.entries[earlier_below(&self.entries, self.count, 1)]))
        }
    }

    /// Takes a hart out, and gives its key; None exactly if it isn't in the schedule.
    pub fn take(&mut self, hart: HartId) -> Option<Tick>
        ensures key { result ≡ key_of self.old hart.0 }
        ensures rest { self.new ≡ without_key hart.0 self.old }
    {
        let slot = slot_of(&self.entries, self.count, hart)?;
        let taken = self.entries[slot];
        let last = self.entries[self.count];
        self.count -= 1;
        if slot <= self.count {
            refill(&mut self.entries, self.count, slot, last);
        }
        Some(contender_of(taken).key)
    }

    /// Gives the hart that is due first a key below 2^56 in place of the one that it has.
    #[inline(always)]
    pub fn rekey_first(&mut self, hart: HartId, key: Tick)
        requires first { IsLeast self.old hart.0 }
        requires key { key < 2 ^ 56 }
        ensures { self.new ≡ with_key hart.0 key (without_key hart.0 self.old) }
    {
        sink(&mut self.entries, self.count, 1, entry_of(key, hart));
    }

    /// Gives a hart a key below 2^56 in place of the one that it has, if it has one: what `take`
    /// and then `put` would leave, by one walk.
    #[inline(always)]
    pub fn rekey(&mut self, hart: HartId, key: Tick)
        requires below { hart.0 < length self.old }
        requires key { key < 2 ^ 56 }
        ensures { self.new ≡ with_key hart.0 key (without_key hart.0 self.old) }
    {
        match self.first() {
            Some(first) if first.hart.0 == hart.0 => self.rekey_first(hart, key),
            _ => self.rekey_any(hart, key),
        }
    }

    /// `rekey`, with the hart looked for in the whole heap.
    #[inline(never)]
    fn rekey_any(&mut self, hart: HartId, key: Tick)
        requires below { hart.0 < length self.old }
        requires key { key < 2 ^ 56 }
        ensures { self.new ≡ with_key hart.0 key (without_key hart.0 self.old) }
    {
        match slot_of(&self.entries, self.count, hart) {
            None => self.put(hart, key),
            Some(slot) => {
                refill(&mut self.entries, self.count, slot, entry_of(key, hart));
            }
        }
    }

    /// A hart's key, which is below 2^56; None exactly if it isn't in the schedule.
    pub fn key(&self, hart: HartId) -> Option<Tick>
        ensures key { result ≡ key_of self.now hart.0 }
        ensures few { IfSome result (λ key. key < 2 ^ 56) }
    {
        let slot = slot_of(&self.entries, self.count, hart)?;
        Some(contender_of(self.entries[slot]).key)
    }

    /// Makes this schedule equal to another of as many harts.
    pub fn copy_from(&mut self, other: &Schedule)
        requires { length self.old ≡ length other.now }
        ensures { self.new ≡ other.now }
    {
        self.entries.copy_from_slice(&other.entries);
        self.count = other.count;
    }
}
