//! The text of curves, on its way to a sink.
ghost use Rattle.std.specs.Prelude.{◌≡◌, ◌++◌, flat_map};
ghost use Rattle.coz_files.specs.Gathered.{Gathers};
ghost use Rattle.coz_files.specs.Puts.{Puts};
ghost use Rattle.causal_curves.specs.Texts.{value_text, bar, step_text, curve_text};

use crate::curve::{Curve, CurveStep};
use coz_files::{PutAnswer, PutBuffer, Sink};
use profile_book::{put_field, put_named, put_signed};

/// The most marks of a bar.
const MAX_BAR: usize = 40;

/// The value of one mark of a bar, in hundredths of a per cent.
const STEP: u128 = 250;

static GAINS: [u8; MAX_BAR] = [b'#'; MAX_BAR];

static LOSSES: [u8; MAX_BAR] = [b'-'; MAX_BAR];

fn bar(value: Option<i128>) -> &'static [u8]
    ensures { result.now ≡ bar value }
{
    match value {
        Some(value) => {
            let length = (value.unsigned_abs() / STEP).min(MAX_BAR as u128) as usize;
            if value < 0 {
                &LOSSES[..length]
            } else {
                &GAINS[..length]
            }
        }
        None => b"",
    }
}

fn put_value<O: Sink>(to: &mut PutBuffer, out: &mut O, name: &[u8], value: Option<i128>)
    ensures { Gathers O.holds O.faults out.old out.new to.old to.new
        (name.now ++ value_text value) }
{
    match value {
        Some(value) => put_signed(to, out, name, value),
        None => put_field(to, out, name, b"absent"),
    }
}

fn put_step<O: Sink>(to: &mut PutBuffer, out: &mut O, step: &CurveStep)
    ensures { Gathers O.holds O.faults out.old out.new to.old to.new (step_text step.now) }
{
    put_named(to, out, b"step\tspeedup=", u64::from(step.speedup));
    put_value(to, out, b"\tvalue=", step.value);
    put_field(to, out, b"\tbar=", bar(step.value));
    to.push(out, b"\n");
}

fn put_steps<O: Sink>(to: &mut PutBuffer, out: &mut O, steps: &[CurveStep])
    ensures { Gathers O.holds O.faults out.old out.new to.old to.new
        (flat_map step_text steps.now) }
{
    for step in steps {
        put_step(to, out, step);
    }
}

fn put_curve<O: Sink>(to: &mut PutBuffer, out: &mut O, curve: &Curve)
    ensures { Gathers O.holds O.faults out.old out.new to.old to.new (curve_text curve.now) }
{
    put_named(to, out, b"curve\tpoint=", u64::from(curve.point));
    put_field(to, out, b"\tselected=", curve.selected.bytes());
    put_value(to, out, b"\tgain=", curve.gain);
    to.push(out, b"\n");
    put_steps(to, out, curve.steps.as_slice());
}

fn put_curves<O: Sink>(to: &mut PutBuffer, out: &mut O, curves: &[Curve])
    ensures { Gathers O.holds O.faults out.old out.new to.old to.new
        (flat_map curve_text curves.now) }
{
    for curve in curves {
        put_curve(to, out, curve);
    }
}

/// Puts the text of the curves.
pub fn write_curves<O: Sink>(curves: &[Curve], out: &mut O) -> PutAnswer
    ensures { Puts O.holds O.faults out.old out.new result (flat_map curve_text curves.now) }
{
    let mut buffer = PutBuffer::new();
    put_curves(&mut buffer, out, curves);
    buffer.finish(out)
}
