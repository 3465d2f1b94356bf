//! The averages of one line at one progress point.
ghost use Rattle.std.specs.Prelude.{◌≡◌, ◌+◌, ◌<◌, ◌≤◌, ◌^◌, length, IfOk};
ghost use Rattle.average_values.specs.Values.{most_parts};
ghost use Rattle.average_curves.specs.Curves.{curve_of, seeds_in, runs_of, IsBaseOf, IsSoundAt};

use crate::averaged::{Averaged, seeds_in};
use crate::cost::cost_of;
use crate::curve::AverageCurve;
use crate::exactness::exactness_of;
use average_steps::{Base, area, area_error, line_steps};
use coz_types::{Items, Label, Summary};
use std::alloc::{AllocError, Global};

/// The averages of a line whose runs begin at a position, and whose first seed has these runs.
pub fn curve(
    alloc: Global,
    averaged: &Averaged,
    base: &Base,
    point: u32,
    start: usize,
    runs: &[Summary],
) -> Result<AverageCurve, AllocError>
    requires sound { IsSoundAt point averaged.now }
    requires base { IsBaseOf averaged.now point base.now }
    requires seeds { 0 < length (seeds_in averaged.now) }
    requires some { 0 < length runs.now }
    requires few { length runs.now ≤ most_parts }
    requires within { start + length runs.now ≤ length (runs_of (seeds_in averaged.now)) }
    requires short { start + length runs.now < 2 ^ 64 }
    ensures { IfOk result (λ curve. curve ≡ curve_of averaged.now point start runs.now) }
{
    let seeds = seeds_in(averaged);
    let place = point as usize;
    let selected = Label::copy(alloc, runs[0].selected.bytes())?;
    let steps = line_steps(alloc, base, place, seeds, start, runs)?;
    let area = area(alloc, &steps)?;
    let error = area_error(alloc, base, place, seeds, start, &steps, area)?;
    let bases = averaged.profiles.len() as u64;
    let cost = cost_of(base.pace, bases, seeds, start, runs);
    let exact = exactness_of(averaged, place, start, &steps);
    Ok(AverageCurve {
        point,
        selected,
        area,
        error,
        cost,
        exact,
        steps: Items::new(steps),
    })
}
