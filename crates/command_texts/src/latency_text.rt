//! The line of the latency of a run.
ghost use Rattle.std.specs.Prelude.{◌++◌, codes};
ghost use Rattle.coz_files.specs.Gathered.{Gathers};
ghost use Rattle.command_texts.specs.LatencyText.{latency_line, run_part, counts_part, area_part, mean_text};

use coz_files::{PutBuffer, Sink};
use coz_types::{Ending, Tick};
use latency_points::Latency;
use profile_book::{put_ending, put_large, put_named};

fn put_mean<O: Sink>(to: &mut PutBuffer, out: &mut O, mean: Option<u128>)
    ensures { Gathers O.holds O.faults out.old out.new to.old to.new
        (codes " mean " ++ mean_text mean) }
{
    match mean {
        Some(mean) => put_large(to, out, b" mean ", mean),
        None => to.push(out, b" mean absent"),
    }
}

fn put_run<O: Sink>(to: &mut PutBuffer, out: &mut O, speedup: u8, ending: Ending, net: Tick)
    ensures { Gathers O.holds O.faults out.old out.new to.old to.new
        (run_part speedup ending net) }
{
    put_named(to, out, b"latency speedup ", speedup as u64);
    to.push(out, b" end ");
    put_ending(to, out, ending);
    put_named(to, out, b" net ", net);
}

fn put_counts<O: Sink>(to: &mut PutBuffer, out: &mut O, latency: Latency)
    ensures { Gathers O.holds O.faults out.old out.new to.old to.new (counts_part latency) }
{
    put_named(to, out, b" arrivals ", latency.arrivals);
    put_named(to, out, b" departures ", latency.departures);
    put_named(to, out, b" stray ", latency.stray);
    put_named(to, out, b" open ", latency.unended);
}

fn put_area<O: Sink>(to: &mut PutBuffer, out: &mut O, latency: Latency)
    ensures { Gathers O.holds O.faults out.old out.new to.old to.new (area_part latency) }
{
    put_large(to, out, b" area ", latency.area);
    put_mean(to, out, latency.mean);
    to.push(out, b"\n");
}

/// Puts the line of a run at a speedup in percent: how it ended, its net time, and the latency of
/// its requests up to then, in net ticks.
pub fn put_latency<O: Sink>(
    to: &mut PutBuffer,
    out: &mut O,
    speedup: u8,
    ending: Ending,
    net: Tick,
    latency: Latency,
)
    ensures { Gathers O.holds O.faults out.old out.new to.old to.new
        (latency_line speedup ending net latency) }
{
    put_run(to, out, speedup, ending, net);
    put_counts(to, out, latency);
    put_area(to, out, latency);
}
