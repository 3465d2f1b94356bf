//! The line of a profile's text that names the machine of the timing model.
//!
//! ```text
//! coz-timing version=1 cores=4 slice=100000 costs=1,2,3,3,8,20,1000 charge=last seed=7
//! ```
//!
//! A tab stands where this shows a space. The line is the first of the text. The usual machine has
//! none.
#![tactic(auto)]

ghost use Rattle.std.specs.Prelude.{◌≡◌};
ghost use Rattle.coz_files.specs.Gathered.{Gathers};
ghost use Rattle.timing_line.specs.Line.{are_usual, charge_name, costs_text, is_usual, timing_line, timing_text};

mod write;

use coz_files::{PutBuffer, Sink};
use profile_book::{put_field, put_named};
use timing_model::{Charge, Costs, Timing};
pub use write::write_timed;

/// The word of a charge.
fn charge_name(charge: Charge) -> &'static [u8]
    ensures { result.now ≡ charge_name charge }
{
    match charge {
        Charge::Nobody => b"none",
        Charge::Last => b"last",
    }
}

/// Whether these are the costs of `cost_table`.
fn are_usual(costs: Costs) -> bool
    ensures { result ≡ are_usual costs }
{
    let cheap = costs.integer == 1 && costs.jump == 2 && costs.load == 3;
    cheap && costs.multiply == 3 && costs.atomic == 8 && costs.divide == 20 && costs.ecall == 40
}

/// Whether this is the machine of `coz profile`: 256 cores, slices of 100,000 cycles, the costs of
/// `cost_table`, nothing charged to another line, and no jitter.
pub fn is_usual(timing: &Timing) -> bool
    ensures { result ≡ is_usual timing.now }
{
    timing.cores == 256
        && timing.slice == 100_000
        && are_usual(timing.costs)
        && matches!(timing.charge, Charge::Nobody)
        && timing.seed == 0
}

/// Puts the costs, with commas between.
fn put_costs<O: Sink>(to: &mut PutBuffer, out: &mut O, costs: &Costs)
    ensures { Gathers O.holds O.faults out.old out.new to.old to.new (costs_text costs.now) }
{
    put_named(to, out, b"\tcosts=", u64::from(costs.integer));
    put_named(to, out, b",", u64::from(costs.jump));
    put_named(to, out, b",", u64::from(costs.load));
    put_named(to, out, b",", u64::from(costs.multiply));
    put_named(to, out, b",", u64::from(costs.atomic));
    put_named(to, out, b",", u64::from(costs.divide));
    put_named(to, out, b",", u64::from(costs.ecall));
}

/// Puts the line that names a machine.
fn put_timing_line<O: Sink>(to: &mut PutBuffer, out: &mut O, timing: &Timing)
    ensures { Gathers O.holds O.faults out.old out.new to.old to.new (timing_line timing.now) }
{
    to.push(out, b"coz-timing\tversion=1");
    put_named(to, out, b"\tcores=", u64::from(timing.cores));
    put_named(to, out, b"\tslice=", timing.slice);
    put_costs(to, out, &timing.costs);
    put_field(to, out, b"\tcharge=", charge_name(timing.charge));
    put_named(to, out, b"\tseed=", timing.seed);
    to.push(out, b"\n");
}

/// Puts the line that names a machine, or nothing for the usual one.
pub fn put_timing<O: Sink>(to: &mut PutBuffer, out: &mut O, timing: &Timing)
    ensures { Gathers O.holds O.faults out.old out.new to.old to.new (timing_text timing.now) }
{
    if !is_usual(timing) {
        put_timing_line(to, out, timing);
    }
}
