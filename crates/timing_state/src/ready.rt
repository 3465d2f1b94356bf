//! The harts that stand in line for a core.
ghost use Rattle.std.specs.Prelude.{◌≡◌, ◌<◌, ◌≤◌, [], ◌∷◌, ◌++◌, length, drop, get_or, IfOk, MatchOption, IsTrue, ◌↔◌};
ghost use Rattle.coz_types.specs.declared.TheConstants.{HARTS};
ghost use Rattle.machines.specs.Places.{is_among};

use circular_buffer::HeapCircularBuffer;
use coz_types::{HARTS, HartId};
use std::alloc::{AllocError, Global};
use std::marker::Model;

/// Up to `HARTS` harts in line, which contracts see as the list of their numbers, the eldest
/// first. `new` alone can be out of memory.
#[derive(Drop)]
pub struct Ready {
    ring: HeapCircularBuffer<u16>,
}

impl Model for Ready {
    ghost use Rattle.std.specs.Prelude.{◌≡◌, ◌≤◌, ◌<◌, List, ℕ, length, All};
    ghost use Rattle.coz_types.specs.declared.TheConstants.{HARTS};

    ghost Value = { List ℕ };

    ghost view = { λ r. r.ring.items };

    ghost invariant = { λ r. (r.ring.capacity ≡ HARTS) × (length r.ring.items ≤ HARTS)
        × All (λ hart. hart < HARTS) r.ring.items };
}

impl Ready {
    /// Returns an empty line. Fails only if out of memory.
    pub fn new(alloc: Global) -> Result<Ready, AllocError>
        ensures { IfOk result (λ ready. ready ≡ []) }
    {
        Ok(Ready {
            ring: HeapCircularBuffer::with_capacity(alloc, HARTS)?,
        })
    }

    /// Whether nobody stands in line.
    #[inline]
    pub fn is_empty(&self) -> bool
        ensures { IsTrue result ↔ (self.now ≡ []) }
    {
        self.ring.is_empty()
    }

    /// Whether a hart stands in line.
    pub fn contains(&self, hart: HartId) -> bool
        ensures { result ≡ is_among hart.0 self.now }
    {
        let (front, back) = self.ring.as_slices();
        front.contains(&hart.0) || back.contains(&hart.0)
    }

    /// Puts a hart at the end of the line.
    pub fn push(&mut self, hart: HartId)
        requires low { hart.0 < HARTS }
        requires room { length self.old < HARTS }
        ensures { self.new ≡ self.old ++ hart.0 ∷ [] }
    {
        let Ok(()) = self.ring.try_push_back(hart.0) else {
            unreachable!()
        };
    }

    /// Takes the eldest hart out of the line; None exactly if nobody stands in it.
    pub fn take_first(&mut self) -> Option<HartId>
        ensures first { MatchOption result (self.old ≡ [])
            (λ hart. self.old ≡ hart.0 ∷ self.new) }
        ensures low { MatchOption result (self.new ≡ []) (λ hart. hart.0 < HARTS) }
    {
        match self.ring.pop_front() {
            Some(hart) => Some(HartId(hart)),
            None => None,
        }
    }

    /// Empties the line.
    pub fn clear(&mut self)
        ensures { self.new ≡ [] }
    {
        self.ring.clear();
    }

    /// Makes this line equal to another one.
    pub fn copy_from(&mut self, other: &Ready)
        ensures { self.new ≡ other.now }
    {
        self.ring.clear();
        let (front, back) = other.ring.as_slices();
        self.ring.fill_from_slice(front);
        self.ring.fill_from_slice(back);
    }

    /// How many harts stand in line.
    #[inline]
    pub fn len(&self) -> usize
        ensures count { result ≡ length self.now }
        ensures few { result ≤ HARTS }
    {
        self.ring.len()
    }

    /// The hart at a place in line; 0 is the place of the eldest.
    #[inline]
    pub fn at(&self, place: usize) -> HartId
        requires { place < length self.now }
        ensures hart { result.0 ≡ get_or self.now place 0 }
        ensures low { result.0 < HARTS }
    {
        match self.ring.get(place) {
            Some(hart) => HartId(*hart),
            None => unreachable!(),
        }
    }
}
