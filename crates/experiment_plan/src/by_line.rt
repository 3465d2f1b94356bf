//! A plan, line by line.
ghost use Rattle.std.specs.Prelude.{◌≡◌, ◌<◌, ◌≤◌, Some, length, slice_get, All};
ghost use Rattle.coz_types.specs.declared.TheConstants.{MAX_SPEEDUP};
ghost use Rattle.experiment_plan.specs.declared.experiment.Experiment.{Experiment};
ghost use Rattle.experiment_plan.specs.ByLine.{by_line, all_pairs, IsOfOneLine};

use crate::experiment::{Experiment, Plan};

impl Plan {
    /// The number of lines of the plan. The plan is the pairs of all of them, in order.
    pub fn line_count(&self) -> u32
        ensures count { result ≡ length (by_line self.now) }
        ensures all { all_pairs (by_line self.now) ≡ self.now }
    {
        (self.pairs.len() / self.speedups) as u32
    }

    /// The pairs of the line at that position of the plan.
    pub fn of_line(&self, claim: u32) -> &[Experiment]
        requires claim { claim < length (by_line self.now) }
        ensures pairs { slice_get (by_line self.now) claim ≡ Some result.now }
        ensures one_line { IsOfOneLine result.now }
        ensures speedups { All (λ (pair : Experiment). pair.speedup ≤ MAX_SPEEDUP) result.now }
    {
        let start = claim as usize * self.speedups;
        &self.pairs[start..start + self.speedups]
    }
}
