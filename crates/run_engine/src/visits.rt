//! The visits of a run, up to a limit.
ghost use Rattle.std.specs.Prelude.{◌≡◌, ◌≤◌, ◌<◌, ◌++◌, [], ◌∷◌, length, IfOk, All};
ghost use Rattle.coz_types.specs.declared.TheConstants.{HARTS, MAX_VISITS};

use coz_types::Visit;
use std::alloc::{AllocError, Global};
use std::marker::Model;

/// The visits of a run, in order, up to a limit. The room for them is taken when it is made.
#[derive(Drop)]
pub struct Visits {
    kept: Vec<Visit>,
    limit: u64,
}

impl Model for Visits {
    ghost use Rattle.std.specs.Prelude.{◌≤◌, ◌<◌, length, All};
    ghost use Rattle.std.specs.Vec.{vec_capacity};
    ghost use Rattle.coz_types.specs.declared.TheConstants.{HARTS, MAX_VISITS};
    ghost use Rattle.run_engine.specs.Visits.{Visits};

    ghost Value = { Visits };

    ghost view = { λ v. record { kept = v.kept.items; limit = v.limit } };

    ghost invariant = { λ v.
        (v.limit ≤ vec_capacity v.kept) × (v.limit ≤ MAX_VISITS)
        × (length v.kept.items ≤ v.limit)
        × All (λ visit. visit.hart.0 < HARTS) v.kept.items };
}

impl Visits {
    /// No visits, with room for `limit`.
    pub fn new(alloc: Global, limit: u64) -> Result<Visits, AllocError>
        requires { limit ≤ MAX_VISITS }
        ensures { IfOk result (λ visits. visits ≡ record { kept = []; limit = limit }) }
    {
        let kept = Vec::with_capacity(alloc, limit as usize)?;
        Ok(Visits { kept, limit })
    }

    /// Appends a visit.
    pub fn push(&mut self, visit: Visit)
        requires room { length self.old.kept < self.old.limit }
        requires hart { visit.hart.0 < HARTS }
        ensures { self.new ≡ record self.old { kept = self.old.kept ++ visit ∷ [] } }
    {
        let Ok(()) = self.kept.push(visit) else {
            unreachable!()
        };
    }

    /// Makes these visits equal to others of the same limit.
    pub fn copy_from(&mut self, other: &Visits)
        requires { self.old.limit ≡ other.now.limit }
        ensures { self.new ≡ other.now }
    {
        self.kept.clear();
        let Ok(()) = self.kept.extend_from_slice(&other.kept) else {
            unreachable!()
        };
    }

    /// The visits, the first of them first.
    pub fn all(&self) -> &[Visit]
        ensures kept { result.now ≡ self.now.kept }
        ensures few { length result.now ≤ MAX_VISITS }
        ensures harts { All (λ visit. visit.hart.0 < HARTS) result.now }
    {
        &self.kept
    }
}
