//! The picture of a curve.
ghost use Rattle.std.specs.Prelude.{◌≡◌, ◌||◌, ◌<◌, ◌≤◌, ◌++◌, flat_map};
ghost use Rattle.coz_files.specs.Gathered.{Gathers};
ghost use Rattle.page_charts.specs.Values.{top_above, top_for, harm_top_for};
ghost use Rattle.page_values.specs.Places.{IsTop};
ghost use Rattle.page_charts.specs.Charts.{place_text, dot_start, dot_text, chart_text, place_at, dot_at, is_notable, small_text};

use crate::axes::{AXES, SMALL_AXES};
use crate::percent::{put_percent, put_size};
use causal_curves::{Curve, CurveStep};
use coz_files::{PutBuffer, Sink};
use page_values::{MAX_SIZE, across, height, is_cut, reaches, worst_of};
use profile_book::put_named;

fn top_above(size: u128) -> u64
    ensures top { result ≡ top_above size }
    ensures range { IsTop result }
{
    if size <= 100 {
        100
    } else if size <= 200 {
        200
    } else if size <= 300 {
        300
    } else if size <= 400 {
        400
    } else if size <= 500 {
        500
    } else if size <= 600 {
        600
    } else if size <= 800 {
        800
    } else if size <= 1000 {
        1000
    } else if size <= 1500 {
        1500
    } else if size <= 2000 {
        2000
    } else if size <= 3000 {
        3000
    } else if size <= 4000 {
        4000
    } else if size <= 5000 {
        5000
    } else if size <= 6000 {
        6000
    } else if size <= 8000 {
        8000
    } else {
        10000
    }
}

/// The upper end of the axis of values, in hundredths of a per cent.
pub fn top_for(gain: Option<i128>) -> u64
    ensures top { result ≡ top_for gain }
    ensures range { IsTop result }
{
    match gain {
        Some(gain) if gain >= 0 => top_above(gain as u128),
        _ => 100,
    }
}

/// The upper end of an axis of which the lower end, a quarter of it, has room for this value,
/// in hundredths of a per cent.
pub fn harm_top_for(worst: Option<i128>) -> u64
    ensures top { result ≡ harm_top_for worst }
    ensures range { IsTop result }
{
    match worst {
        Some(worst) => top_above(4 * worst.unsigned_abs().min(MAX_SIZE)),
        None => 100,
    }
}

fn put_place<O: Sink>(to: &mut PutBuffer, out: &mut O, top: u64, speedup: u8, value: i128)
    requires { IsTop top }
    ensures { Gathers O.holds O.faults out.old out.new to.old to.new
        (place_text top speedup value) }
{
    put_named(to, out, b" ", across(speedup));
    put_named(to, out, b",", height(top, value));
}

fn dot_start(is_low: bool) -> &'static [u8]
    ensures { result.now ≡ dot_start is_low }
{
    if is_low {
        b"<circle class=\"low"
    } else {
        b"<circle class=\"dot"
    }
}

fn put_dot<O: Sink>(to: &mut PutBuffer, out: &mut O, top: u64, speedup: u8, value: i128)
    requires { IsTop top }
    ensures { Gathers O.holds O.faults out.old out.new to.old to.new (dot_text top speedup value) }
{
    to.push(out, dot_start(is_cut(top, value)));
    put_named(to, out, b"\" r=\"14\" cx=\"", across(speedup));
    put_named(to, out, b"\" cy=\"", height(top, value));
    put_named(to, out, b"\"><title>line ", speedup as u64);
    to.push(out, b"% faster: ");
    put_percent(to, out, value);
    to.push(out, b"</title></circle>");
}

fn put_place_at<O: Sink>(to: &mut PutBuffer, out: &mut O, top: u64, step: &CurveStep)
    requires { IsTop top }
    ensures { Gathers O.holds O.faults out.old out.new to.old to.new (place_at top step.now) }
{
    if let Some(value) = step.value {
        put_place(to, out, top, step.speedup, value);
    }
}

fn put_dot_at<O: Sink>(to: &mut PutBuffer, out: &mut O, top: u64, step: &CurveStep)
    requires { IsTop top }
    ensures { Gathers O.holds O.faults out.old out.new to.old to.new (dot_at top step.now) }
{
    if let Some(value) = step.value {
        put_dot(to, out, top, step.speedup, value);
    }
}

fn put_places<O: Sink>(to: &mut PutBuffer, out: &mut O, top: u64, steps: &[CurveStep])
    requires { IsTop top }
    ensures { Gathers O.holds O.faults out.old out.new to.old to.new
        (flat_map (place_at top) steps.now) }
{
    for step in steps {
        put_place_at(to, out, top, step);
    }
}

fn put_dots<O: Sink>(to: &mut PutBuffer, out: &mut O, top: u64, steps: &[CurveStep])
    requires { IsTop top }
    ensures { Gathers O.holds O.faults out.old out.new to.old to.new
        (flat_map (dot_at top) steps.now) }
{
    for step in steps {
        put_dot_at(to, out, top, step);
    }
}

/// Whether the gain or the size of the worst value is at least a hundredth of the axis.
pub fn is_notable(top: u64, curve: &Curve) -> bool
    ensures { result ≡ is_notable top curve.now }
{
    reaches(top, curve.gain) || reaches(top, worst_of(curve.steps.as_slice()))
}

/// The picture of a curve in a row of a table: its line over the axis of speedups.
pub fn put_small<O: Sink>(to: &mut PutBuffer, out: &mut O, top: u64, curve: &Curve)
    requires { IsTop top }
    ensures { Gathers O.holds O.faults out.old out.new to.old to.new (small_text top curve.now) }
{
    to.push(out, SMALL_AXES);
    put_places(to, out, top, curve.steps.as_slice());
    to.push(out, b"\"/></svg>");
}

/// The picture of a curve, over an axis of values with this upper end, from behind the beginning of
/// its element.
pub fn put_chart<O: Sink>(to: &mut PutBuffer, out: &mut O, top: u64, curve: &Curve)
    requires { IsTop top }
    ensures { Gathers O.holds O.faults out.old out.new to.old to.new (chart_text top curve.now) }
{
    to.push(out, AXES);
    put_size(to, out, top as u128);
    to.push(out, b"</text><polyline points=\"");
    put_places(to, out, top, curve.steps.as_slice());
    to.push(out, b"\"/>");
    put_dots(to, out, top, curve.steps.as_slice());
    to.push(out, b"</svg>");
}
