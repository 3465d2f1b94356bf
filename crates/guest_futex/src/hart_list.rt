//! Lists of harts, in room that is taken when they are made.
ghost use Rattle.std.specs.Prelude.{◌≡◌, ◌<◌, [], ◌∷◌, ◌++◌, length, map};

use coz_types::{HARTS, HartId};
use std::marker::Model;

/// A list of up to `HARTS` harts, which contracts see as the list of their numbers.
#[derive(Drop)]
pub struct HartList {
    slots: [HartId; HARTS],
    count: usize,
}

impl Model for HartList {
    ghost use Rattle.std.specs.Prelude.{◌≤◌, List, ℕ, map, take};
    ghost use Rattle.coz_types.specs.declared.TheConstants.{HARTS};

    ghost Value = { List ℕ };

    ghost view = { λ l. map (λ hart. hart.0) (take l.count l.slots) };

    ghost invariant = { λ l. l.count ≤ HARTS };
}

impl HartList {
    /// No harts.
    pub fn new() -> HartList
        ensures { result ≡ [] }
    {
        HartList {
            slots: [HartId(0); HARTS],
            count: 0,
        }
    }

    /// Appends a hart.
    pub fn push(&mut self, hart: HartId)
        requires { length self.old < HARTS }
        ensures { self.new ≡ self.old ++ hart.0 ∷ [] }
    {
        self.slots[self.count] = hart;
        self.count += 1;
    }

    /// The harts, the first of them first.
    pub fn harts(&self) -> &[HartId]
        ensures { map (λ hart. hart.0) result.now ≡ self.now }
    {
        &self.slots[..self.count]
    }

    /// Makes the list equal to another one.
    pub fn copy_from(&mut self, other: &HartList)
        ensures { self.new ≡ other.now }
    {
        let count = other.count;
        self.slots[..count].copy_from_slice(&other.slots[..count]);
        self.count = count;
    }

    /// Makes the list empty.
    pub fn clear(&mut self)
        ensures { self.new ≡ [] }
    {
        self.count = 0;
    }
}
