//! The experiments of a profile, and why there are none.
ghost use Rattle.std.specs.Prelude.{◌≡◌, ◌≤◌, length, All};
ghost use Rattle.experiment_plan.specs.declared.experiment.TheConstants.{MAX_PAIRS};
ghost use Rattle.coz_types.specs.declared.TheConstants.{MAX_SPEEDUP};
ghost use Rattle.experiment_plan.specs.declared.experiment.Experiment.{Experiment};
ghost use Rattle.experiment_plan.specs.declared.experiment.PlanError.TheVariants.{Memory};

use coz_types::LineId;
use std::alloc::{AllocError, AllocFailed};
use std::marker::Model;

/// The most experiments of a plan.
pub const MAX_PAIRS: u64 = 100_000;

/// A line and how many per cent faster it is to be, 0 to `MAX_SPEEDUP`.
#[derive(Clone, Copy, PartialEq, Eq)]
pub struct Experiment {
    /// The selected line.
    pub line: LineId,
    /// By how many per cent it is to cost less.
    pub speedup: u8,
}

/// Why there is no plan.
#[derive(Clone, Copy, PartialEq, Eq)]
pub enum PlanError {
    /// The number of pairs, which exceeds `MAX_PAIRS`.
    TooMany(u64),
    /// Out of memory.
    Memory,
}

impl From<AllocError> for PlanError {
    ghost from_gives = { λ _ e. e ≡ Memory };

    fn from(_: AllocError) -> PlanError {
        PlanError::Memory
    }
}

/// The experiments of a profile, by line and then by speedup: at most 100,000.
/// Contracts see the list of them.
#[derive(Drop)]
pub struct Plan {
    pub(crate) pairs: Vec<Experiment>,
    // How many pairs each line has.
    pub(crate) speedups: usize,
}

impl Model for Plan {
    ghost use Rattle.std.specs.Prelude.{List};
    ghost use Rattle.experiment_plan.specs.declared.experiment.Experiment.{Experiment};

    ghost Value = { List Experiment };

    ghost use Rattle.experiment_plan.specs.Pairs.{ArePlanned};

    ghost view = { λ plan. plan.pairs.items };

    ghost invariant = { λ plan. ArePlanned plan.speedups plan.pairs.items };
}

impl Plan {
    /// The experiments, by line and then by speedup.
    pub fn pairs(&self) -> &[Experiment]
        ensures pairs { result.now ≡ self.now }
        ensures few { length result.now ≤ MAX_PAIRS }
        ensures speedups { All (λ (pair : Experiment). pair.speedup ≤ MAX_SPEEDUP) result.now }
    {
        &self.pairs
    }
}

fn is_shared<T: Send + Sync>() {}

// Workers share a plan.
fn plan_is_shared() {
    is_shared::<Plan>()
}
