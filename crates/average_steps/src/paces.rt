//! The net times and the visits of runs.
ghost use Rattle.std.specs.Prelude.{◌≡◌, ◌==◌, All, IfSome, option_copied, find};
ghost use Rattle.coz_types.specs.declared.record.Summary.{Summary};
ghost use Rattle.causal_curves.specs.Measured.{IsMeasured};
ghost use Rattle.average_values.specs.Values.{IsPace};
ghost use Rattle.average_steps.specs.Steps.{pace_of, pace_or, first_pace};

use average_values::Pace;
use coz_types::Summary;
use profile_book::Profile;

/// The net time of a run, and how often it visits the point.
pub fn pace(point: usize, summary: &Summary) -> Pace
    requires { IsMeasured point summary.now }
    ensures pace { result ≡ pace_of point summary.now }
    ensures small { IsPace result }
{
    Pace {
        net: (summary.outcome.time - summary.outcome.delay) as u128,
        visits: summary.counts.as_slice()[point] as u128,
    }
}

fn first_run(profile: &Profile) -> Option<&Summary>
    ensures { option_copied result
        ≡ find (λ (s : Summary). s.speedup == 0) profile.now.summaries }
{
    let runs = profile.summaries.as_slice();
    runs.iter().find(|summary| summary.speedup == 0)
}

fn pace_or(point: usize, run: Option<&Summary>) -> Pace
    requires { IfSome (option_copied run) (IsMeasured point) }
    ensures pace { result ≡ pace_or point (option_copied run.entry) }
    ensures small { IsPace result }
{
    match run {
        Some(summary) => pace(point, summary),
        None => Pace { net: 0, visits: 0 },
    }
}

/// Those of the first run at speedup 0; 0 without one.
pub fn first_pace(point: usize, profile: &Profile) -> Pace
    requires { All (IsMeasured point) profile.now.summaries }
    ensures pace { result ≡ first_pace point profile.now }
    ensures small { IsPace result }
{
    pace_or(point, first_run(profile))
}
