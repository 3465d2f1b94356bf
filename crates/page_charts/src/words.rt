//! A curve in words.
ghost use Rattle.std.specs.Prelude.{◌≡◌, flat_map};
ghost use Rattle.coz_files.specs.Gathered.{Gathers};
ghost use Rattle.page_charts.specs.Charts.{flat_text, rough_text, gain_text, item_text, items_text};

use crate::percent::put_value;
use causal_curves::{Curve, CurveStep};
use coz_files::{PutBuffer, Sink};
use page_values::{flat_from, is_rough};
use profile_book::put_named;

fn put_flat<O: Sink>(to: &mut PutBuffer, out: &mut O, from: Option<u8>)
    ensures { Gathers O.holds O.faults out.old out.new to.old to.new (flat_text from) }
{
    if let Some(speedup) = from {
        put_named(to, out, b", all of it by ", speedup as u64);
        to.push(out, b"%");
    }
}

fn put_rough<O: Sink>(to: &mut PutBuffer, out: &mut O, rough: bool)
    ensures { Gathers O.holds O.faults out.old out.new to.old to.new (rough_text rough) }
{
    if rough {
        to.push(out, b", goes up and down");
    }
}

/// Puts the gain of a curve in per cent, the speedup from which on the curve stays at it, and
/// whether the curve goes up and down.
pub fn put_gain<O: Sink>(to: &mut PutBuffer, out: &mut O, curve: &Curve)
    ensures { Gathers O.holds O.faults out.old out.new to.old to.new (gain_text curve.now) }
{
    put_value(to, out, b": ", curve.gain);
    put_flat(to, out, flat_from(curve));
    put_rough(to, out, is_rough(curve));
}

fn put_item<O: Sink>(to: &mut PutBuffer, out: &mut O, step: &CurveStep)
    ensures { Gathers O.holds O.faults out.old out.new to.old to.new (item_text step.now) }
{
    put_named(to, out, b"<li>", step.speedup as u64);
    put_value(to, out, b"% faster: ", step.value);
    to.push(out, b"</li>");
}

fn put_each<O: Sink>(to: &mut PutBuffer, out: &mut O, steps: &[CurveStep])
    ensures { Gathers O.holds O.faults out.old out.new to.old to.new
        (flat_map item_text steps.now) }
{
    for step in steps {
        put_item(to, out, step);
    }
}

/// Puts the values of a curve as a list that is closed at first.
pub fn put_items<O: Sink>(to: &mut PutBuffer, out: &mut O, steps: &[CurveStep])
    ensures { Gathers O.holds O.faults out.old out.new to.old to.new (items_text steps.now) }
{
    to.push(out, b"<details><summary>Values</summary><ul>");
    put_each(to, out, steps);
    to.push(out, b"</ul></details>");
}
