//! The curves of a profile, by rank.
ghost use Rattle.std.specs.Prelude.{◌≡◌, ◌≤◌, ◌++◌, map, length, IfOk, OnOk};
ghost use Rattle.std.specs.List.{All, AllByRecursion};
ghost use Rattle.coz_types.specs.declared.TheConstants.{MAX_POINTS};
ghost use Rattle.coz_types.specs.Ranges.{IsSummary};
ghost use Rattle.causal_curves.specs.Curves.{curve_of, curves_at, curves_of, ranked_curves, IsRanking};
ghost use Rattle.causal_curves.specs.Measured.{IsMeasured};

use crate::curve::Curve;
use crate::steps::curve;
use coz_types::{Items, Summary};
use profile_book::Profile;
use profile_labels::group_length;
use std::alloc::{AllocError, Global};
use std::cmp::Reverse;

fn push_curves(
    alloc: Global,
    point: u32,
    summaries: &[Summary],
    into: &mut Vec<Curve>,
) -> Result<(), AllocError>
    requires { All (IsMeasured point) summaries.now }
    ensures { OnOk result (into.new.items ≡ into.old.items ++ curves_at summaries.now point) }
{
    let mut rest = summaries;
    while !rest.is_empty() {
        let (group, behind) = rest.split_at(group_length(rest));
        into.push(curve(alloc, point, group)?)?;
        rest = behind;
    }
    Ok(())
}

fn all_curves(alloc: Global, profile: &Profile) -> Result<Vec<Curve>, AllocError>
    requires points { length profile.now.points ≤ MAX_POINTS }
    requires summaries { AllByRecursion (IsSummary (length profile.now.points))
        profile.now.summaries }
    ensures { IfOk result (λ curves. curves.items ≡ curves_of profile.now) }
{
    let mut curves = Vec::new(alloc);
    let summaries = profile.summaries.as_slice();
    for point in 0..profile.points.len() {
        push_curves(alloc, point as u32, summaries, &mut curves)?;
    }
    Ok(curves)
}

/// The curves of each progress point over each line, by rank.
pub fn curves(alloc: Global, profile: &Profile) -> Result<Items<Curve>, AllocError>
    requires points { length profile.now.points ≤ MAX_POINTS }
    requires summaries { AllByRecursion (IsSummary (length profile.now.points))
        profile.now.summaries }
    ensures ranking { IfOk result (IsRanking (curves_of profile.now)) }
    ensures ranked { IfOk result (λ curves. curves ≡ ranked_curves (curves_of profile.now)) }
{
    let mut curves = all_curves(alloc, profile)?;
    curves.sort_by_key(|curve| (curve.point, Reverse(curve.gain)))?;
    Ok(Items::new(curves))
}
