//! What is averaged.
ghost use Rattle.std.specs.Prelude.{◌≡◌, ◌≤◌, length};
ghost use Rattle.average_curves.specs.Curves.{seeds_in, points_of};

use coz_types::Items;
use profile_book::Profile;

/// Profiles of one program's lines, on machines that differ in their seeds.
#[derive(Drop)]
pub struct Averaged {
    /// Those of the seeds, which have the same lines and speedups, and then those that add to the
    /// base alone.
    pub profiles: Items<Profile>,
    /// The number of those of the seeds.
    pub seeds: usize,
    /// The profile of the exact schedule, which has no part in the averages.
    pub exact: Option<Profile>,
}

/// The profiles of the seeds.
pub fn seeds_in(averaged: &Averaged) -> &[Profile]
    requires { averaged.now.seeds ≤ length averaged.now.profiles }
    ensures { result.now ≡ seeds_in averaged.now }
{
    &averaged.profiles.as_slice()[..averaged.seeds]
}

/// The number of progress points.
pub fn count_points(averaged: &Averaged) -> u64
    ensures { result ≡ length (points_of averaged.now.profiles) }
{
    match averaged.profiles.as_slice().first() {
        Some(profile) => profile.points.len() as u64,
        None => 0,
    }
}
