//! The area of a curve and its error.
ghost use Rattle.std.specs.Prelude.{◌≡◌, ◌+◌, ◌<◌, ◌≤◌, ◌^◌, All, length, map, IfOk, IfSome};
ghost use Rattle.std.specs.List.{filter};
ghost use Rattle.causal_curves.specs.Measured.{IsMeasured};
ghost use Rattle.profile_book.specs.declared.profile.Profile.{Profile};
ghost use Rattle.average_values.specs.Values.{IsBase, IsValue, IsSum, most_parts, most_runs};
ghost use Rattle.average_steps.specs.Steps.{is_faster, faster_values, area_of, area_error, seed_values, seed_total, totals_of, AreMeasured, IsStep};

use crate::average_step::AverageStep;
use crate::base::Base;
use crate::paces::pace;
use crate::present::present;
use crate::steps::error_between;
use average_values::{Pace, Variance, mean, total, value, variance_of};
use coz_types::Summary;
use profile_book::Profile;
use std::alloc::{AllocError, Global};

/// The values at speedups over 0.
fn faster_values(alloc: Global, steps: &[AverageStep]) -> Result<Vec<Option<i128>>, AllocError>
    requires { All IsStep steps.now }
    ensures values { IfOk result (λ values. values.items ≡ faster_values steps.now) }
    ensures small { IfOk result (λ values. All (λ v. IfSome v IsValue) values.items) }
    ensures few { IfOk result (λ values. length values.items ≤ length steps.now) }
{
    let mut values = Vec::with_capacity(alloc, steps.len())?;
    for step in steps {
        if step.speedup != 0 {
            values.push(step.value)?;
        }
    }
    Ok(values)
}

/// The mean of the values at speedups over 0, if there are some and all are present.
pub fn area(alloc: Global, steps: &[AverageStep]) -> Result<Option<i128>, AllocError>
    requires steps { All IsStep steps.now }
    requires few { length steps.now ≤ most_parts }
    ensures { IfOk result (λ area. area ≡ area_of steps.now) }
{
    let values = faster_values(alloc, steps)?;
    if values.is_empty() {
        return Ok(None);
    }
    match present(alloc, &values)? {
        Some(values) => Ok(Some(mean(&values))),
        None => Ok(None),
    }
}

/// The values of a seed's runs at speedups over 0.
fn seed_values(
    alloc: Global,
    base: Pace,
    point: usize,
    runs: &[Summary],
) -> Result<Vec<Option<i128>>, AllocError>
    requires base { IsBase base }
    requires measured { All (IsMeasured point) runs.now }
    ensures values { IfOk result (λ values. values.items ≡ seed_values base point runs.now) }
    ensures small { IfOk result (λ values. All (λ v. IfSome v IsValue) values.items) }
    ensures few { IfOk result (λ values. length values.items ≤ length runs.now) }
{
    let mut values = Vec::with_capacity(alloc, runs.len())?;
    for run in runs {
        if run.speedup != 0 {
            values.push(value(base, pace(point, run)))?;
        }
    }
    Ok(values)
}

/// Their sum, if all are present.
fn seed_total(
    alloc: Global,
    base: Pace,
    point: usize,
    runs: &[Summary],
) -> Result<Option<i128>, AllocError>
    requires base { IsBase base }
    requires measured { All (IsMeasured point) runs.now }
    requires few { length runs.now ≤ most_parts }
    ensures total { IfOk result (λ total. total ≡ seed_total base point runs.now) }
    ensures small { IfOk result (λ total. IfSome total IsSum) }
{
    let values = seed_values(alloc, base, point, runs)?;
    match present(alloc, &values)? {
        Some(values) => Ok(Some(total(&values))),
        None => Ok(None),
    }
}

/// The sums of each seed's values over the speedups of a line.
fn totals(
    alloc: Global,
    base: Pace,
    point: usize,
    profiles: &[Profile],
    start: usize,
    count: usize,
) -> Result<Vec<Option<i128>>, AllocError>
    requires base { IsBase base }
    requires measured { AreMeasured point profiles.now }
    requires long { All (λ (p : Profile). start + count ≤ length p.summaries) profiles.now }
    requires few { count ≤ most_parts }
    ensures totals { IfOk result (λ totals.
        totals.items ≡ totals_of base point profiles.now start count) }
    ensures small { IfOk result (λ totals. All (λ v. IfSome v IsSum) totals.items) }
{
    let mut totals = Vec::with_capacity(alloc, profiles.len())?;
    for profile in profiles {
        let runs = &profile.summaries.as_slice()[start..][..count];
        totals.push(seed_total(alloc, base, point, runs)?)?;
    }
    Ok(totals)
}

fn count_faster(steps: &[AverageStep]) -> u64
    ensures { result ≡ length (filter is_faster steps.now) }
{
    steps.iter().filter(|step| step.speedup != 0).count() as u64
}

/// The error of the area of a line whose runs begin at a position.
pub fn area_error(
    alloc: Global,
    base: &Base,
    point: usize,
    profiles: &[Profile],
    start: usize,
    steps: &[AverageStep],
    area: Option<i128>,
) -> Result<Option<u128>, AllocError>
    requires base { IsBase base.now.pace }
    requires runs { length profiles.now ≤ most_runs }
    requires measured { AreMeasured point profiles.now }
    requires long { All (λ (p : Profile). start + length steps.now ≤ length p.summaries)
        profiles.now }
    requires few { length steps.now ≤ most_parts }
    ensures { IfOk result (λ error. error ≡ area_error area (length (filter is_faster steps.now))
        (totals_of base.now.pace point profiles.now start (length steps.now))
        base.now.variance) }
{
    let parts = count_faster(steps);
    if area.is_none() || parts == 0 {
        return Ok(None);
    }
    let totals = totals(alloc, base.pace, point, profiles, start, steps.len())?;
    match present(alloc, &totals)? {
        Some(totals) => Ok(error_between(&variance_of(parts, &totals), &base.variance)),
        None => Ok(None),
    }
}
