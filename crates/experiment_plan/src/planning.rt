//! The plan of a profile: each line at each speedup.
ghost use Rattle.std.specs.Prelude.{◌≡◌, ◌≤◌, ◌<◌, ◌∷◌, ◌++◌, ◌+◌, ◌*◌, ◌^◌, ℕ, length, map, All, IfOk, OnOk};
ghost use Rattle.std.specs.Ordering.{nat_cmp};
ghost use Rattle.std.specs.List.Sorted.{IsStrictlySortedBy};
ghost use Rattle.coz_types.specs.declared.LineId.{LineId};
ghost use Rattle.coz_types.specs.declared.TheConstants.{MAX_SPEEDUP};
ghost use Rattle.experiment_plan.specs.declared.experiment.Experiment.{Experiment};
ghost use Rattle.experiment_plan.specs.Selected.{ids, rising_numbers};
ghost use Rattle.experiment_plan.specs.Pairs.{at_speedup, pairs_of, pair_cmp, IsPlan};

use crate::experiment::{Experiment, MAX_PAIRS, Plan, PlanError};
use coz_types::LineId;
use std::alloc::{AllocError, Global};

/// Speedups with 0 among them, in percent, as they rise and each once. Err: out of memory.
pub fn rising_speedups(alloc: Global, speedups: &[u8]) -> Result<Vec<u8>, AllocError>
    ensures { IfOk result (λ rises. rises.items ≡ rising_numbers (0 ∷ speedups.now)) }
{
    let mut rises = Vec::with_capacity(alloc, 1)?;
    rises.push(0)?;
    rises.extend_from_slice(speedups)?;
    rises.sort()?;
    rises.dedup();
    Ok(rises)
}

/// Appends the pairs of a line with each speedup.
fn push_line(pairs: &mut Vec<Experiment>, line: LineId, speedups: &[u8]) -> Result<(), AllocError>
    ensures { OnOk result
        (pairs.new.items ≡ pairs.old.items ++ map (at_speedup line) speedups.now) }
{
    for speedup in speedups {
        pairs.push(Experiment {
            line,
            speedup: *speedup,
        })?;
    }
    Ok(())
}

fn pairs_of(alloc: Global, lines: &[LineId], speedups: &[u8]) -> Result<Vec<Experiment>, AllocError>
    ensures { IfOk result (λ pairs. pairs.items ≡ pairs_of lines.now speedups.now) }
{
    let mut pairs = Vec::new(alloc);
    for line in lines {
        push_line(&mut pairs, *line, speedups)?;
    }
    Ok(pairs)
}

/// A line's number, which 32 bits hold.
fn number_of(line: LineId) -> u64
    ensures number { result ≡ line.0 }
    ensures small { result < 2 ^ 32 }
{
    u64::from(line.0)
}

/// The number of pairs.
fn pair_count(lines: &[LineId], speedups: &[u8]) -> u64
    requires rising { IsStrictlySortedBy nat_cmp (ids lines.now) }
    requires few { length speedups.now ≤ MAX_SPEEDUP + 1 }
    ensures { result ≡ length lines.now * length speedups.now }
{
    let Some(last) = lines.last() else {
        return 0;
    };
    // Lines that rise are no more than the numbers up to the last of them, so the product fits.
    let _greatest = number_of(*last);
    lines.len() as u64 * speedups.len() as u64
}

/// Each line at 0 and at each of the speedups: by line, then by speedup. Their number is judged
/// before a pair is made. Err says that there are more than 100,000, or that it is out of memory.
pub fn plan(alloc: Global, lines: &[LineId], speedups: &[u8]) -> Result<Plan, PlanError>
    requires rising { IsStrictlySortedBy nat_cmp (ids lines.now) }
    requires speedups { All (λ speedup. speedup ≤ MAX_SPEEDUP) speedups.now }
    ensures plan { IsPlan lines.now speedups.now result }
    ensures in_order { IfOk result (IsStrictlySortedBy pair_cmp) }
    ensures below { (count : ℕ) → All (λ (line : LineId). line.0 < count) lines.now →
        IfOk result (All (λ (pair : Experiment). pair.line.0 < count)) }
    ensures speedups { IfOk result (All (λ (pair : Experiment). pair.speedup ≤ MAX_SPEEDUP)) }
{
    let speedups = rising_speedups(alloc, speedups)?;
    let count = pair_count(lines, &speedups);
    if count > MAX_PAIRS {
        return Err(PlanError::TooMany(count));
    }
    let pairs = pairs_of(alloc, lines, &speedups)?;
    Ok(Plan {
        pairs,
        speedups: speedups.len(),
    })
}
