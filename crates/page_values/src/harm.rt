//! The least values of curves.
ghost use Rattle.std.specs.Prelude.{◌≡◌, ◌==◌, not};
ghost use Rattle.page_values.specs.Harm.{lesser, worst_of};

use causal_curves::CurveStep;

fn lesser(a: Option<i128>, b: Option<i128>) -> Option<i128>
    ensures { result ≡ lesser a b }
{
    let Some(least) = a else {
        return b;
    };
    match b {
        Some(value) if value < least => b,
        _ => a,
    }
}

fn is_faster(step: &CurveStep) -> bool
    ensures { result ≡ not (step.now.speedup == 0) }
{
    step.speedup != 0
}

/// The least value of a curve at a speedup over 0, in hundredths of a per cent.
/// None if all of these are absent.
pub fn worst_of(steps: &[CurveStep]) -> Option<i128>
    ensures { result ≡ worst_of steps.now }
{
    let mut worst = None;
    for i in (0..steps.len()).rev() {
        let step = steps[i];
        if is_faster(&step) {
            worst = lesser(worst, step.value);
        }
    }
    worst
}
