//! The jitter of a machine, with what is drawn once for each hart.
ghost use Rattle.std.specs.Prelude.{◌≡◌, ◌≤◌, length, IfOk};
ghost use Rattle.coz_types.specs.declared.TheConstants.{HARTS};
ghost use Rattle.timing_laws.specs.Noted.{is_doubled, splitmix};
ghost use Rattle.timing_state.specs.Jitter.{AreKeys};

use coz_types::{HARTS, HartId};
use std::alloc::{AllocError, Global};
use std::marker::Model;
use timing_model::{is_doubled_by, splitmix};

/// The jitter of a seed, 0 for none, with the keys of the harts. Contracts see the seed. `new`
/// alone can be out of memory.
#[derive(Drop)]
pub struct Jitter {
    seed: u64,
    keys: Vec<u64>,
}

impl Model for Jitter {
    ghost use Rattle.std.specs.Prelude.{◌≡◌, ℕ, length};
    ghost use Rattle.coz_types.specs.declared.TheConstants.{HARTS};
    ghost use Rattle.timing_state.specs.Jitter.{AreKeys};

    ghost Value = { ℕ };

    ghost view = { λ j. j.seed };

    ghost invariant = { λ j. (length j.keys.items ≡ HARTS)
        × AreKeys j.seed (length j.keys.items) j.keys.items };
}

/// Puts the key of each hart into a table.
fn draw_keys(keys: &mut Vec<u64>, seed: u64)
    requires few { length keys.old.items ≤ HARTS }
    ensures keys { AreKeys seed (length keys.new.items) keys.new.items }
    ensures count { length keys.new.items ≡ length keys.old.items }
{
    for hart in 0..keys.len() {
        keys[hart] = splitmix(seed, hart as u64);
    }
}

impl Jitter {
    /// Returns the jitter of a seed. Fails only if out of memory.
    pub fn new(alloc: Global, seed: u64) -> Result<Jitter, AllocError>
        ensures { IfOk result (λ jitter. jitter ≡ seed) }
    {
        let mut keys = vec![in alloc; 0; HARTS]?;
        draw_keys(&mut keys, seed);
        Ok(Jitter { seed, keys })
    }

    /// The key of a hart.
    #[inline(always)]
    fn key(&self, hart: HartId) -> u64
        ensures { result ≡ splitmix self.now hart.0 }
    {
        let index = usize::from(hart.0);
        if index < self.keys.len() {
            self.keys[index]
        } else {
            splitmix(self.seed, u64::from(hart.0))
        }
    }

    /// Whether the instruction that a hart retires after `count` others costs twice.
    #[inline(always)]
    pub fn is_doubled(&self, hart: HartId, count: u64) -> bool
        ensures { result ≡ is_doubled self.now hart.0 count }
    {
        if self.seed == 0 {
            return false;
        }
        is_doubled_by(self.key(hart), count)
    }

    /// Makes this jitter equal to another one.
    pub fn copy_from(&mut self, other: &Jitter)
        ensures { self.new ≡ other.now }
    {
        if self.seed != other.seed {
            self.keys.copy_from_slice(&other.keys);
            self.seed = other.seed;
        }
    }
}
