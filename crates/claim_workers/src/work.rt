//! What the work of claims is, as its workers see it.
ghost use Rattle.std.specs.Prelude.{◌≡◌, ℕ, ◌<◌, List, All, IfOk};
ghost use Rattle.coz_types.specs.declared.record.Summary.{Summary};
ghost use Rattle.coz_types.specs.Ranges.{IsSummary};

use coz_types::{Items, Summary};
use std::alloc::{AllocError, Global};

/// The work of claims: the state of a worker, and the summaries that the work of each claim gives.
/// Workers share it, and none writes it.
pub trait ClaimWork: Sync {
    /// The state of a worker. It is made once for each worker.
    type Runner: Drop + Send;

    /// The condition that holds before a worker begins.
    ghost is_ready: { Self → Type 0 };

    /// The number of claims.
    ghost bound: { Self → ℕ };

    /// The summaries that the work of a claim gives.
    ghost summaries_of_claim: { Self → ℕ → List Summary };

    /// The number of progress points of the summaries.
    ghost points: { Self → ℕ };

    /// A runner was made for this work.
    ghost is_for: { Self → Self.Runner → Type 0 };

    /// The number of claims.
    fn count(&self) -> u32
        ensures { result ≡ bound self.now };

    /// Makes a worker's state. Err: out of memory.
    fn runner(&self, alloc: Global) -> Result<Self::Runner, AllocError>
        requires { is_ready self.now }
        ensures { IfOk result (is_for self.now) };

    /// Does the work of a claim, and returns its summaries. Err: out of memory.
    fn summaries(
        &self,
        alloc: Global,
        runner: &mut Self::Runner,
        claim: u32,
    ) -> Result<Items<Summary>, AllocError>
        requires work { is_ready self.now }
        requires runner { is_for self.now runner.old }
        requires claim { claim < bound self.now }
        ensures runner { is_for self.now runner.new }
        ensures summaries { IfOk result (λ summaries.
            summaries ≡ summaries_of_claim self.now claim) }
        ensures ranges { IfOk result (All (IsSummary (points self.now))) };
}
