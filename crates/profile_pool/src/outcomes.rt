//! How a run that has ended came out, within the ranges of a summary.
ghost use Rattle.std.specs.Prelude.{◌≡◌, true, IfSome, IsSome, Some};
ghost use Rattle.coz_types.specs.Ranges.{is_ending};
ghost use Rattle.virtual_run.specs.DelayedRun.{IsOfAHart};

use coz_types::{Ending, Outcome};

/// Returns the ending itself. By the match a proof knows that each of its numbers is within its
/// type; a trap is of a hart below `HARTS`.
fn in_range(ending: Ending) -> Ending
    requires { IsOfAHart ending }
    ensures same { result ≡ ending }
    ensures range { is_ending result ≡ true }
{
    match ending {
        Ending::Exited(code) => Ending::Exited(code),
        Ending::Trapped(trap) => Ending::Trapped(trap),
        Ending::Unsupported(number) => Ending::Unsupported(number),
        other => other,
    }
}

/// The outcome of a run that has ended.
pub fn ended(outcome: Option<Outcome>) -> Outcome
    requires ended { IsSome outcome }
    requires hart { IfSome outcome (λ outcome. IsOfAHart outcome.ending) }
    ensures same { Some result ≡ outcome }
    ensures ending { is_ending result.ending ≡ true }
{
    let Some(outcome) = outcome else {
        unreachable!()
    };
    Outcome {
        ending: in_range(outcome.ending),
        ..outcome
    }
}
