//! Whether the exact schedule shows what the average shows.
ghost use Rattle.std.specs.Prelude.{◌≡◌, ◌+◌, ◌<◌, ◌^◌, All, length, IfSome};
ghost use Rattle.causal_curves.specs.Measured.{IsMeasured};
ghost use Rattle.profile_book.specs.declared.profile.Profile.{Profile};
ghost use Rattle.average_values.specs.Values.{IsBase};
ghost use Rattle.average_steps.specs.Steps.{IsStep};
ghost use Rattle.average_curves.specs.Curves.{is_rough_at, is_rough, exactness_of};

use crate::averaged::Averaged;
use crate::curve::Exactness;
use average_steps::{AverageStep, first_pace, value_in};
use average_values::{Pace, differ};
use profile_book::Profile;

/// Whether the exact value at a position differs from that of the step.
fn is_rough_at(base: Pace, point: usize, exact: &Profile, block: usize, step: &AverageStep) -> bool
    requires base { IsBase base }
    requires measured { All (IsMeasured point) exact.now.summaries }
    requires step { IsStep step.now }
    ensures { result ≡ is_rough_at base point exact.now block step.now }
{
    match (value_in(base, point, exact, block), step.value) {
        (Some(exact), Some(value)) => differ(exact, value, step.error),
        _ => false,
    }
}

/// Whether an exact value of a line whose runs begin at a position differs from its average.
fn is_rough(base: Pace, point: usize, exact: &Profile, start: usize, steps: &[AverageStep]) -> bool
    requires base { IsBase base }
    requires measured { All (IsMeasured point) exact.now.summaries }
    requires steps { All IsStep steps.now }
    requires short { start + length steps.now < 2 ^ 64 }
    ensures { result ≡ is_rough base point exact.now start steps.now }
{
    for i in 0..steps.len() {
        if is_rough_at(base, point, exact, start + i, &steps[i]) {
            return true;
        }
    }
    false
}

/// Whether the exact schedule shows these averages of a line whose runs begin at a position.
pub fn exactness_of(
    averaged: &Averaged,
    point: usize,
    start: usize,
    steps: &[AverageStep],
) -> Exactness
    requires measured { IfSome averaged.now.exact (λ (p : Profile). All (IsMeasured point) p.summaries) }
    requires steps { All IsStep steps.now }
    requires short { start + length steps.now < 2 ^ 64 }
    ensures { result ≡ exactness_of averaged.now.exact point start steps.now }
{
    match &averaged.exact {
        Some(exact) => {
            if is_rough(first_pace(point, exact), point, exact, start, steps) {
                Exactness::Rough
            } else {
                Exactness::Smooth
            }
        }
        None => Exactness::Absent,
    }
}
