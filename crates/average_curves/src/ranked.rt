//! The averages of all lines, by rank.
ghost use Rattle.std.specs.Prelude.{◌≡◌, ◌<◌, ◌++◌, length, IfOk, OnOk};
ghost use Rattle.std.specs.List.{AllByRecursion};
ghost use Rattle.profile_labels.specs.Groups.{groups};
ghost use Rattle.average_curves.specs.Curves.{curves_at, curves_of, ranked_curves, runs_of, seeds_in, IsAveraged, IsBaseOf, IsRanking, IsShort, IsSoundAt};

use crate::averaged::{Averaged, seeds_in};
use crate::curve::AverageCurve;
use crate::line::curve;
use average_steps::{Base, base_of};
use coz_types::{Items, Summary};
use profile_labels::group_length;
use std::alloc::{AllocError, Global};
use std::cmp::Reverse;

/// Adds the averages of each line at a point.
fn push_curves(
    alloc: Global,
    averaged: &Averaged,
    base: &Base,
    point: u32,
    runs: &[Summary],
    into: &mut Vec<AverageCurve>,
) -> Result<(), AllocError>
    requires sound { IsSoundAt point averaged.now }
    requires base { IsBaseOf averaged.now point base.now }
    requires seeds { 0 < length (seeds_in averaged.now) }
    requires runs { runs.now ≡ runs_of (seeds_in averaged.now) }
    requires short { AllByRecursion IsShort (groups runs.now) }
    ensures { OnOk result (into.new.items ≡ into.old.items ++ curves_at averaged.now runs.now point) }
{
    let mut rest = runs;
    let mut start = 0;
    while !rest.is_empty() {
        let length = group_length(rest);
        let (group, behind) = rest.split_at(length);
        into.push(curve(alloc, averaged, base, point, start, group)?)?;
        start += length;
        rest = behind;
    }
    Ok(())
}

/// The averages of each line at each point.
fn all_curves(alloc: Global, averaged: &Averaged) -> Result<Vec<AverageCurve>, AllocError>
    requires { IsAveraged averaged.now }
    ensures { IfOk result (λ curves. curves.items ≡ curves_of averaged.now) }
{
    let mut curves = Vec::new(alloc);
    let seeds = seeds_in(averaged);
    if seeds.is_empty() {
        return Ok(curves);
    }
    let first = &seeds[0];
    for point in 0..first.points.len() {
        let base = base_of(alloc, point, averaged.profiles.as_slice())?;
        push_curves(
            alloc,
            averaged,
            &base,
            point as u32,
            first.summaries.as_slice(),
            &mut curves,
        )?;
    }
    Ok(curves)
}

/// The averages of each line at each point, by rank.
pub fn ranked_curves(alloc: Global, averaged: &Averaged) -> Result<Items<AverageCurve>, AllocError>
    requires { IsAveraged averaged.now }
    ensures ranking { IfOk result (IsRanking (curves_of averaged.now)) }
    ensures ranked { IfOk result (λ curves. curves ≡ ranked_curves (curves_of averaged.now)) }
{
    let mut curves = all_curves(alloc, averaged)?;
    curves.sort_by_key(|curve| (curve.point, Reverse(curve.area)))?;
    Ok(Items::new(curves))
}
