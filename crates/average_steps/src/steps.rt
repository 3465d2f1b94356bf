//! The steps of a curve.
ghost use Rattle.std.specs.Prelude.{◌≡◌, ◌+◌, ◌^◌, ◌<◌, ◌≤◌, All, length, map, slice_get, option_copied, IfOk, IfSome};
ghost use Rattle.std.specs.List.{enumerate_from};
ghost use Rattle.causal_curves.specs.Measured.{IsMeasured};
ghost use Rattle.average_values.specs.Values.{IsBase, IsValue, most_runs};
ghost use Rattle.average_steps.specs.Steps.{run_value, values_at, error_between, step_error, step_of, steps_of, AreMeasured, IsStep};

use crate::average_step::AverageStep;
use crate::base::Base;
use crate::paces::pace;
use crate::present::present;
use average_values::{Pace, Variance, error_of, mean, value, variance_of};
use coz_types::Summary;
use profile_book::Profile;
use std::alloc::{AllocError, Global};

/// The value of a run against a base; 0 at speedup 0.
fn run_value(base: Pace, point: usize, run: Option<&Summary>) -> Option<i128>
    requires base { IsBase base }
    requires run { IfSome (option_copied run) (IsMeasured point) }
    ensures value { result ≡ run_value base point (option_copied run.entry) }
    ensures small { IfSome result IsValue }
{
    let summary = run?;
    if summary.speedup == 0 {
        return Some(0);
    }
    value(base, pace(point, summary))
}

/// The value of a profile's run at a position; None without one.
pub fn value_in(base: Pace, point: usize, profile: &Profile, block: usize) -> Option<i128>
    requires base { IsBase base }
    requires measured { All (IsMeasured point) profile.now.summaries }
    ensures value { result ≡ run_value base point (slice_get profile.now.summaries block) }
    ensures small { IfSome result IsValue }
{
    let runs = profile.summaries.as_slice();
    if block < runs.len() {
        run_value(base, point, Some(&runs[block]))
    } else {
        None
    }
}

/// The values of the profiles' runs at a position.
fn values_at(
    alloc: Global,
    base: Pace,
    point: usize,
    profiles: &[Profile],
    block: usize,
) -> Result<Vec<Option<i128>>, AllocError>
    requires base { IsBase base }
    requires measured { AreMeasured point profiles.now }
    ensures values { IfOk result (λ values.
        values.items ≡ values_at base point profiles.now block) }
    ensures small { IfOk result (λ values. All (λ v. IfSome v IsValue) values.items) }
{
    let mut values = Vec::with_capacity(alloc, profiles.len())?;
    for profile in profiles {
        values.push(value_in(base, point, profile, block))?;
    }
    Ok(values)
}

/// The root of the sum of two variances, if both are known.
pub fn error_between(a: &Option<Variance>, b: &Option<Variance>) -> Option<u128>
    ensures error { result ≡ error_between a.now b.now }
    ensures small { IfSome result (λ e. e < 2 ^ 126) }
{
    match (a, b) {
        (Some(a), Some(b)) => Some(error_of(a, b)),
        _ => None,
    }
}

/// At speedup 0 nothing varies.
fn step_error(speedup: u8, a: &Option<Variance>, b: &Option<Variance>) -> Option<u128>
    ensures error { result ≡ step_error speedup a.now b.now }
    ensures small { IfSome result (λ e. e < 2 ^ 126) }
{
    let error = error_between(a, b)?;
    if speedup == 0 { Some(0) } else { Some(error) }
}

/// The step of the profiles' runs at a position.
fn step(
    alloc: Global,
    base: &Base,
    point: usize,
    profiles: &[Profile],
    block: usize,
    speedup: u8,
) -> Result<AverageStep, AllocError>
    requires base { IsBase base.now.pace }
    requires some { 0 < length profiles.now }
    requires few { length profiles.now ≤ most_runs }
    requires measured { AreMeasured point profiles.now }
    ensures small { IfOk result IsStep }
    ensures step { IfOk result (λ step. step
        ≡ step_of base.now.pace base.now.variance point profiles.now block speedup) }
{
    let values = values_at(alloc, base.pace, point, profiles, block)?;
    match present(alloc, &values)? {
        Some(values) => Ok(AverageStep {
            speedup,
            value: Some(mean(&values)),
            error: step_error(speedup, &variance_of(1, &values), &base.variance),
        }),
        None => Ok(AverageStep {
            speedup,
            value: None,
            error: None,
        }),
    }
}

/// The steps of a line whose runs begin at a position, and whose first profile has these runs.
pub fn line_steps(
    alloc: Global,
    base: &Base,
    point: usize,
    profiles: &[Profile],
    start: usize,
    runs: &[Summary],
) -> Result<Vec<AverageStep>, AllocError>
    requires base { IsBase base.now.pace }
    requires some { 0 < length profiles.now }
    requires few { length profiles.now ≤ most_runs }
    requires measured { AreMeasured point profiles.now }
    requires short { start + length runs.now < 2 ^ 64 }
    ensures small { IfOk result (λ steps. All IsStep steps.items) }
    ensures steps { IfOk result (λ steps. steps.items
        ≡ steps_of base.now.pace base.now.variance point profiles.now start runs.now) }
{
    let mut steps = Vec::with_capacity(alloc, runs.len())?;
    for i in 0..runs.len() {
        steps.push(step(alloc, base, point, profiles, start + i, runs[i].speedup)?)?;
    }
    Ok(steps)
}
