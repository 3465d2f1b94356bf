//! The base: the runs at speedup 0 of all profiles together.
ghost use Rattle.std.specs.Prelude.{◌≡◌, ◌≤◌, All, length, map, IfOk, IfSome};
ghost use Rattle.average_values.specs.Values.{value, IsBase, IsValue, most_runs};
ghost use Rattle.average_steps.specs.Steps.{first_pace, base_pace, base_values, base_variance, AreMeasured};

use crate::paces::first_pace;
use crate::present::present;
use average_values::{Pace, Variance, value, variance_of};
use profile_book::Profile;
use std::alloc::{AllocError, Global};

/// The runs at speedup 0.
#[derive(Drop)]
pub struct Base {
    /// Their net times and visits, summed.
    pub pace: Pace,
    /// The variance of the mean of their values against that.
    pub variance: Option<Variance>,
}

fn pace_of(point: usize, profiles: &[Profile]) -> Pace
    requires few { length profiles.now ≤ most_runs }
    requires measured { AreMeasured point profiles.now }
    ensures pace { result ≡ base_pace point profiles.now }
    ensures small { IsBase result }
{
    let mut net: u128 = 0;
    let mut visits: u128 = 0;
    for profile in profiles {
        let pace = first_pace(point, profile);
        net += pace.net;
        visits += pace.visits;
    }
    Pace { net, visits }
}

fn values_of(
    alloc: Global,
    base: Pace,
    point: usize,
    profiles: &[Profile],
) -> Result<Vec<Option<i128>>, AllocError>
    requires base { IsBase base }
    requires measured { AreMeasured point profiles.now }
    ensures values { IfOk result (λ values. values.items
        ≡ map (λ p. value base (first_pace point p)) profiles.now) }
    ensures small { IfOk result (λ values. All (λ v. IfSome v IsValue) values.items) }
{
    let mut values = Vec::with_capacity(alloc, profiles.len())?;
    for profile in profiles {
        values.push(value(base, first_pace(point, profile)))?;
    }
    Ok(values)
}

fn variance(
    alloc: Global,
    base: Pace,
    point: usize,
    profiles: &[Profile],
) -> Result<Option<Variance>, AllocError>
    requires base { base ≡ base_pace point profiles.now }
    requires small { IsBase base }
    requires few { length profiles.now ≤ most_runs }
    requires measured { AreMeasured point profiles.now }
    ensures { IfOk result (λ variance. variance ≡ base_variance point profiles.now) }
{
    let values = values_of(alloc, base, point, profiles)?;
    match present(alloc, &values)? {
        Some(values) => Ok(variance_of(1, &values)),
        None => Ok(None),
    }
}

/// The base of a point.
pub fn base_of(alloc: Global, point: usize, profiles: &[Profile]) -> Result<Base, AllocError>
    requires few { length profiles.now ≤ most_runs }
    requires measured { AreMeasured point profiles.now }
    ensures pace { IfOk result (λ base. base.pace ≡ base_pace point profiles.now) }
    ensures small { IfOk result (λ base. IsBase base.pace) }
    ensures variance { IfOk result (λ base.
        base.variance ≡ base_variance point profiles.now) }
{
    let pace = pace_of(point, profiles);
    let variance = variance(alloc, pace, point, profiles)?;
    Ok(Base { pace, variance })
}
