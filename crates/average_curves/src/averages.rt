//! The averages of profiles.
ghost use Rattle.std.specs.Prelude.{◌≡◌, IfOk};
ghost use Rattle.average_curves.specs.Curves.{averages_of, IsAveraged};

use crate::averaged::{Averaged, count_points};
use crate::curve::AverageCurve;
use crate::ranked::ranked_curves;
use coz_types::Items;
use std::alloc::{AllocError, Global};

/// The averages of profiles, and how many profiles they are of.
#[derive(Drop)]
pub struct Averages {
    /// The number of profiles of seeds.
    pub seeds: u64,
    /// The number of profiles in the base.
    pub base: u64,
    /// The number of progress points.
    pub points: u64,
    /// The curve of each line at each point, by rank.
    pub curves: Items<AverageCurve>,
}

/// The averages of profiles.
pub fn average(alloc: Global, averaged: &Averaged) -> Result<Averages, AllocError>
    requires { IsAveraged averaged.now }
    ensures { IfOk result (λ averages. averages ≡ averages_of averaged.now) }
{
    Ok(Averages {
        seeds: averaged.seeds as u64,
        base: averaged.profiles.len() as u64,
        points: count_points(averaged),
        curves: ranked_curves(alloc, averaged)?,
    })
}
