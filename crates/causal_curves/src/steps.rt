//! The steps of a curve.
ghost use Rattle.std.specs.Prelude.{◌≡◌, ◌<◌, ◌==◌, not, map, option_copied, IfOk, IfSome, length};
ghost use Rattle.std.specs.List.{All};
ghost use Rattle.causal_curves.specs.Curves.{base_of, step_of, greater, gain_of, curve_of};
ghost use Rattle.causal_curves.specs.Measured.{IsMeasured};

use crate::curve::{Curve, CurveStep};
use crate::measures::value_over;
use coz_types::{Items, Label, Summary};
use std::alloc::{AllocError, Global};

fn base_of(group: &[Summary]) -> Option<&Summary>
    ensures { option_copied result ≡ base_of group.now }
{
    group.iter().find(|summary| summary.speedup == 0)
}

fn step(point: usize, base: Option<&Summary>, summary: &Summary) -> CurveStep
    requires base { IfSome (option_copied base) (IsMeasured point) }
    requires summary { IsMeasured point summary.now }
    ensures { result ≡ step_of point (option_copied base.entry) summary.now }
{
    let value = match base {
        Some(base) => value_over(point, base, summary),
        None => None,
    };
    CurveStep {
        speedup: summary.speedup,
        value,
    }
}

fn greater(a: Option<i128>, b: Option<i128>) -> Option<i128>
    ensures { result ≡ greater a b }
{
    if a.cmp(&b).is_lt() { b } else { a }
}

fn is_faster(step: &CurveStep) -> bool
    ensures { result ≡ not (step.now.speedup == 0) }
{
    step.speedup != 0
}

fn gain_of(steps: &[CurveStep]) -> Option<i128>
    ensures { result ≡ gain_of steps.now }
{
    let mut gain = None;
    for i in (0..steps.len()).rev() {
        let step = steps[i];
        if is_faster(&step) {
            gain = greater(gain, step.value);
        }
    }
    gain
}

fn steps_of(
    alloc: Global,
    point: usize,
    base: Option<&Summary>,
    group: &[Summary],
) -> Result<Vec<CurveStep>, AllocError>
    requires base { IfSome (option_copied base) (IsMeasured point) }
    requires group { All (IsMeasured point) group.now }
    ensures { IfOk result (λ steps.
        steps.items ≡ map (step_of point (option_copied base.entry)) group.now) }
{
    let mut steps = Vec::with_capacity(alloc, group.len())?;
    for summary in group {
        steps.push(step(point, base, summary))?;
    }
    Ok(steps)
}

/// The curve of a point over the summaries of one line.
pub fn curve(alloc: Global, point: u32, group: &[Summary]) -> Result<Curve, AllocError>
    requires some { 0 < length group.now }
    requires group { All (IsMeasured point) group.now }
    ensures { IfOk result (λ curve. curve ≡ curve_of point group.now) }
{
    let selected = Label::copy(alloc, group[0].selected.bytes())?;
    let steps = steps_of(alloc, point as usize, base_of(group), group)?;
    let gain = gain_of(&steps);
    Ok(Curve {
        point,
        selected,
        gain,
        steps: Items::new(steps),
    })
}
