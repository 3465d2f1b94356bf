//! The text of averages, on its way to a sink.
ghost use Rattle.std.specs.Prelude.{◌≡◌, ◌++◌, flat_map};
ghost use Rattle.coz_files.specs.Gathered.{Gathers};
ghost use Rattle.coz_files.specs.Puts.{Puts};
ghost use Rattle.causal_curves.specs.Texts.{value_text};
ghost use Rattle.average_curves.specs.Texts.{number_text, exact_text, step_text, curve_text, head_text, averages_text};

use crate::averages::Averages;
use crate::curve::{AverageCurve, Exactness};
use average_steps::AverageStep;
use coz_files::{PutAnswer, PutBuffer, Sink};
use profile_book::{put_field, put_large, put_named, put_signed};

fn put_value<O: Sink>(to: &mut PutBuffer, out: &mut O, name: &[u8], value: Option<i128>)
    ensures { Gathers O.holds O.faults out.old out.new to.old to.new
        (name.now ++ value_text value) }
{
    match value {
        Some(value) => put_signed(to, out, name, value),
        None => put_field(to, out, name, b"absent"),
    }
}

fn put_number<O: Sink>(to: &mut PutBuffer, out: &mut O, name: &[u8], number: Option<u128>)
    ensures { Gathers O.holds O.faults out.old out.new to.old to.new
        (name.now ++ number_text number) }
{
    match number {
        Some(number) => put_large(to, out, name, number),
        None => put_field(to, out, name, b"absent"),
    }
}

fn exact_text(exact: Exactness) -> &'static [u8]
    ensures { result.now ≡ exact_text exact }
{
    match exact {
        Exactness::Absent => b"absent",
        Exactness::Smooth => b"smooth",
        Exactness::Rough => b"rough",
    }
}

fn put_step<O: Sink>(to: &mut PutBuffer, out: &mut O, step: &AverageStep)
    ensures { Gathers O.holds O.faults out.old out.new to.old to.new (step_text step.now) }
{
    put_named(to, out, b"step\tspeedup=", u64::from(step.speedup));
    put_value(to, out, b"\tvalue=", step.value);
    put_number(to, out, b"\terror=", step.error);
    to.push(out, b"\n");
}

fn put_steps<O: Sink>(to: &mut PutBuffer, out: &mut O, steps: &[AverageStep])
    ensures { Gathers O.holds O.faults out.old out.new to.old to.new
        (flat_map step_text steps.now) }
{
    for step in steps {
        put_step(to, out, step);
    }
}

fn put_curve<O: Sink>(to: &mut PutBuffer, out: &mut O, curve: &AverageCurve)
    ensures { Gathers O.holds O.faults out.old out.new to.old to.new (curve_text curve.now) }
{
    put_named(to, out, b"curve\tpoint=", u64::from(curve.point));
    put_field(to, out, b"\tselected=", curve.selected.bytes());
    put_value(to, out, b"\tarea=", curve.area);
    put_number(to, out, b"\terror=", curve.error);
    put_number(to, out, b"\tcost=", curve.cost);
    put_field(to, out, b"\texact=", exact_text(curve.exact));
    to.push(out, b"\n");
    put_steps(to, out, curve.steps.as_slice());
}

fn put_curves<O: Sink>(to: &mut PutBuffer, out: &mut O, curves: &[AverageCurve])
    ensures { Gathers O.holds O.faults out.old out.new to.old to.new
        (flat_map curve_text curves.now) }
{
    for curve in curves {
        put_curve(to, out, curve);
    }
}

fn put_head<O: Sink>(to: &mut PutBuffer, out: &mut O, averages: &Averages)
    ensures { Gathers O.holds O.faults out.old out.new to.old to.new (head_text averages.now) }
{
    put_named(to, out, b"average\tseeds=", averages.seeds);
    put_named(to, out, b"\tbase=", averages.base);
    put_named(to, out, b"\tpoints=", averages.points);
    to.push(out, b"\n");
}

/// Puts the text of averages.
pub fn write_averages<O: Sink>(averages: &Averages, out: &mut O) -> PutAnswer
    ensures { Puts O.holds O.faults out.old out.new result (averages_text averages.now) }
{
    let mut buffer = PutBuffer::new();
    put_head(&mut buffer, out, averages);
    put_curves(&mut buffer, out, averages.curves.as_slice());
    buffer.finish(out)
}
