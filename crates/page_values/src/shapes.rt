//! The shape of a curve: the mean of its values, how far it goes up and down, and where it stays
//! flat.
ghost use Rattle.std.specs.Prelude.{◌≡◌, ◌+◌, ◌-◌, ◌*◌, ◌≤◌, ◌<◌, ◌&&◌, if◌then◌else◌, Some, cond, length};
ghost use Rattle.page_values.specs.Shapes.{level, level_of, gap, counts, step_level, mean_over, mean_of, first_value, variation_of, range_of, is_rough, keeps, flat_above, flat_from};

use crate::harm::worst_of;
use causal_curves::{Curve, CurveStep};

/// The greatest size of a value that counts, in hundredths of a per cent: a value beyond it counts
/// as it.
const MAX_VALUE: u64 = 100_000_000;

/// The least number of speedups of a curve that can go up and down.
const MIN_SPEEDUPS: usize = 10;

/// The range of such a curve is greater than this, in hundredths of a per cent.
const MAX_SMOOTH: u64 = 100;

/// The most by which a value is below the gain at which its curve stays, in hundredths of a per
/// cent.
const MAX_DROP: u64 = 10;

/// How far a value is above the least that counts.
fn level(value: i128) -> u64
    ensures level { result ≡ level value }
    ensures within { result ≤ 200000000 }
{
    let size = value.unsigned_abs().min(MAX_VALUE as u128) as u64;
    if value < 0 {
        MAX_VALUE - size
    } else {
        MAX_VALUE + size
    }
}

fn level_of(value: Option<i128>) -> u64
    ensures level { result ≡ level_of value }
    ensures within { result ≤ 200000000 }
{
    match value {
        Some(value) => level(value),
        None => MAX_VALUE,
    }
}

fn step_level(step: &CurveStep) -> u64
    ensures level { result ≡ step_level step.now }
    ensures within { result ≤ 200000000 }
{
    level_of(step.value)
}

fn gap(a: Option<i128>, b: Option<i128>) -> u64
    ensures gap { result ≡ gap a b }
    ensures within { result ≤ 200000000 }
{
    match (a, b) {
        (Some(a), Some(b)) => level(a).abs_diff(level(b)),
        _ => 0,
    }
}

fn counts(step: &CurveStep) -> bool
    ensures { result ≡ counts step.now }
{
    step.speedup > 0 && step.value.is_some()
}

/// The levels of some steps: their sum and their number.
#[derive(Clone, Copy)]
struct Levels {
    total: u128,
    count: u64,
}

/// The levels with that of a step, if it counts.
fn with_step(levels: Levels, step: &CurveStep) -> Levels
    requires count { levels.count < 18446744073709551615 }
    requires total { levels.total ≤ 200000000 * levels.count }
    ensures total { result.total ≡ levels.total + cond (counts step.now) (step_level step.now) 0 }
    ensures count { result.count ≡ levels.count + cond (counts step.now) 1 0 }
    ensures within { result.total ≤ 200000000 * result.count }
{
    if counts(step) {
        Levels {
            total: levels.total + step_level(step) as u128,
            count: levels.count + 1,
        }
    } else {
        levels
    }
}

fn mean_over(levels: Levels) -> Option<i128>
    requires total { levels.total ≤ 200000000 * levels.count }
    ensures { result ≡ mean_over levels.total levels.count }
{
    if levels.count == 0 {
        return None;
    }
    let mean = levels.total / levels.count as u128;
    Some(mean as i128 - MAX_VALUE as i128)
}

/// The mean of the values of a curve at speedups over 0, in hundredths of a per cent, rounded down.
/// None if all of these are absent. A value beyond 1,000,000 per cent, on either side, counts as
/// that.
pub fn mean_of(steps: &[CurveStep]) -> Option<i128>
    ensures { result ≡ mean_of steps.now }
{
    let mut levels = Levels { total: 0, count: 0 };
    for step in steps {
        levels = with_step(levels, step);
    }
    mean_over(levels)
}

/// The total variation of a curve: how far it goes up and down in all.
fn variation_of(steps: &[CurveStep]) -> u128
    ensures variation { result ≡ variation_of steps.now }
    ensures within { result ≤ 200000000 * length steps.now }
{
    let mut next = None;
    let mut variation = 0;
    for i in (0..steps.len()).rev() {
        let step = steps[i];
        variation += gap(step.value, next) as u128;
        next = step.value.or(next);
    }
    variation
}

fn range_of(curve: &Curve) -> u64
    ensures range { result ≡ range_of curve.now }
    ensures within { result ≤ 200000000 }
{
    let greatest = level_of(curve.gain).max(MAX_VALUE);
    let least = level_of(worst_of(curve.steps.as_slice())).min(MAX_VALUE);
    greatest - least
}

/// Whether a curve goes up and down: it has ten or more speedups, its values have a range of more
/// than one per cent, and its total variation is more than one and a half times that range. Other
/// schedules of the threads may give such a curve other values.
pub fn is_rough(curve: &Curve) -> bool
    ensures { result ≡ is_rough curve.now }
{
    let steps = curve.steps.as_slice();
    let range = range_of(curve);
    steps.len() >= MIN_SPEEDUPS && range > MAX_SMOOTH && 2 * variation_of(steps) > 3 * range as u128
}

fn keeps(gain: u64, step: &CurveStep) -> bool
    requires { gain ≤ 100000000 }
    ensures { result ≡ keeps gain step.now }
{
    let level = step_level(step);
    level > MAX_VALUE && gain <= level - MAX_VALUE + MAX_DROP
}

/// Whether a step keeps the gain, as all steps behind it do.
fn keep_on(gain: u64, step: &CurveStep, all: bool) -> bool
    requires { gain ≤ 100000000 }
    ensures { result ≡ (keeps gain step.now && all) }
{
    keeps(gain, step) && all
}

/// The speedup of a step if it has steps behind it and all keep the gain, or else what was found
/// behind it.
fn flat_at(some: bool, all: bool, step: &CurveStep, from: Option<u8>) -> Option<u8>
    ensures { result ≡ (if some && all then Some step.now.speedup else from) }
{
    if some && all {
        Some(step.speedup)
    } else {
        from
    }
}

fn flat_above(gain: u64, steps: &[CurveStep]) -> Option<u8>
    requires { gain ≤ 100000000 }
    ensures { result ≡ flat_above gain steps.now }
{
    let mut all = true;
    let mut from = None;
    for i in (0..steps.len()).rev() {
        let step = steps[i];
        all = keep_on(gain, &step, all);
        from = flat_at(i + 1 < steps.len(), all, &step, from);
    }
    from
}

/// The speedup in per cent from which on a curve stays at its gain: each value from there on is at
/// most 0.1 per cent below the gain. None if there is none but the greatest speedup.
pub fn flat_from(curve: &Curve) -> Option<u8>
    ensures { result ≡ flat_from curve.now }
{
    let gain = level_of(curve.gain).saturating_sub(MAX_VALUE);
    flat_above(gain, curve.steps.as_slice())
}
