//! What a line costs.
ghost use Rattle.std.specs.Prelude.{◌≡◌, ◌<◌, ◌≤◌, ◌+◌, ◌*◌, ◌^◌, All, length};
ghost use Rattle.coz_types.specs.declared.TheConstants.{MAX_NUMBER};
ghost use Rattle.profile_book.specs.declared.profile.Profile.{Profile};
ghost use Rattle.average_values.specs.Values.{IsBase, most_runs};
ghost use Rattle.average_curves.specs.Curves.{delay_at, delays_at, cost_at, cost_of, HasSmallDelay};

use average_values::{Pace, cost};
use coz_types::Summary;
use profile_book::Profile;

/// The delay of a profile's run at a position; 0 without one.
fn delay_at(profile: &Profile, block: usize) -> u128
    requires { All HasSmallDelay profile.now.summaries }
    ensures delay { result ≡ delay_at block profile.now }
    ensures small { result ≤ MAX_NUMBER }
{
    let runs = profile.summaries.as_slice();
    if block < runs.len() {
        runs[block].outcome.delay as u128
    } else {
        0
    }
}

/// The sum of the delays of the seeds' runs at a position.
fn delays_at(seeds: &[Profile], block: usize) -> u128
    requires few { length seeds.now ≤ most_runs }
    requires small { All (λ (p : Profile). All HasSmallDelay p.summaries) seeds.now }
    ensures delays { result ≡ delays_at block seeds.now }
    ensures small { result ≤ most_runs * MAX_NUMBER }
{
    let mut sum: u128 = 0;
    for profile in seeds {
        sum += delay_at(profile, block);
    }
    sum
}

/// What a line costs by its seeds' runs at a position, which have this speedup.
fn cost_at(base: Pace, bases: u64, seeds: &[Profile], block: usize, speedup: u8) -> Option<u128>
    requires base { IsBase base }
    requires bases { bases ≤ most_runs }
    requires some { 0 < length seeds.now }
    requires few { length seeds.now ≤ most_runs }
    requires small { All (λ (p : Profile). All HasSmallDelay p.summaries) seeds.now }
    ensures { result ≡ cost_at base bases seeds.now block speedup }
{
    if speedup == 0 {
        return None;
    }
    cost(
        base,
        bases,
        delays_at(seeds, block),
        seeds.len() as u64,
        speedup,
    )
}

/// What a line costs by the last of its runs, which has its greatest speedup.
pub fn cost_of(
    base: Pace,
    bases: u64,
    seeds: &[Profile],
    start: usize,
    runs: &[Summary],
) -> Option<u128>
    requires base { IsBase base }
    requires bases { bases ≤ most_runs }
    requires some { 0 < length seeds.now }
    requires few { length seeds.now ≤ most_runs }
    requires small { All (λ (p : Profile). All HasSmallDelay p.summaries) seeds.now }
    requires runs { 0 < length runs.now }
    requires short { start + length runs.now < 2 ^ 64 }
    ensures { result ≡ cost_of base bases seeds.now start runs.now }
{
    let last = runs.len() - 1;
    cost_at(base, bases, seeds, start + last, runs[last].speedup)
}
