//! The lines of a profile's text, on their way to a sink.
ghost use Rattle.std.specs.Prelude.{flat_map};
ghost use Rattle.std.specs.List.{enumerate_from};
ghost use Rattle.coz_files.specs.Gathered.{Gathers};
ghost use Rattle.coz_types.specs.Endings.{ending_text};
ghost use Rattle.profile_book.specs.Pieces.{end_line};
ghost use Rattle.profile_book.specs.Profile.{head_line, point_line, experiment_line, output_line, count_line, visits_line, block};

use crate::pieces::{put_address, put_digest, put_field, put_named};
use crate::profile::Profile;
use coz_files::{PutBuffer, Sink};
use coz_types::{Ending, Label, Summary, Trap};

/// Puts the first line: the version, the budget and the number of points.
pub fn put_head<O: Sink>(to: &mut PutBuffer, out: &mut O, profile: &Profile)
    ensures { Gathers O.holds O.faults out.old out.new to.old to.new (head_line profile.now) }
{
    to.push(out, b"coz-ticks\tversion=1");
    put_named(to, out, b"\tbudget=", profile.budget);
    put_named(to, out, b"\tpoints=", profile.points.len() as u64);
    to.push(out, b"\n");
}

fn put_point<O: Sink>(to: &mut PutBuffer, out: &mut O, index: usize, label: &Label)
    ensures { Gathers O.holds O.faults out.old out.new to.old to.new
        (point_line (index, label.now)) }
{
    put_named(to, out, b"point\tindex=", index as u64);
    put_field(to, out, b"\tname=", label.bytes());
    to.push(out, b"\n");
}

/// Puts the line of each point.
pub fn put_points<O: Sink>(to: &mut PutBuffer, out: &mut O, points: &[Label])
    ensures { Gathers O.holds O.faults out.old out.new to.old to.new
        (flat_map point_line (enumerate_from 0 points.now)) }
{
    for (index, label) in points.iter().enumerate() {
        put_point(to, out, index, label);
    }
}

fn put_trap<O: Sink>(to: &mut PutBuffer, out: &mut O, trap: Trap)
    ensures { Gathers O.holds O.faults out.old out.new to.old to.new
        (ending_text (Ending.Trapped trap)) }
{
    put_field(to, out, b"trapped:", trap.cause.name());
    put_named(to, out, b":", u64::from(trap.hart.0));
    to.push(out, b":");
    put_address(to, out, trap.pc);
}

/// Puts how a run ended.
pub fn put_ending<O: Sink>(to: &mut PutBuffer, out: &mut O, ending: Ending)
    ensures { Gathers O.holds O.faults out.old out.new to.old to.new (ending_text ending) }
{
    match ending {
        Ending::Exited(code) => put_named(to, out, b"exited:", u64::from(code)),
        Ending::Trapped(trap) => put_trap(to, out, trap),
        Ending::Unsupported(number) => put_named(to, out, b"unsupported:", number),
        Ending::Clock => to.push(out, b"clock"),
        Ending::OutputFull => to.push(out, b"output-full"),
        Ending::VisitsFull => to.push(out, b"visits-full"),
        Ending::Stalled => to.push(out, b"stalled"),
        Ending::Spent => to.push(out, b"spent"),
    }
}

/// Puts a line of how a run ended.
pub fn put_end<O: Sink>(to: &mut PutBuffer, out: &mut O, ending: Ending)
    ensures { Gathers O.holds O.faults out.old out.new to.old to.new (end_line ending) }
{
    to.push(out, b"end ");
    put_ending(to, out, ending);
    to.push(out, b"\n");
}

fn put_experiment<O: Sink>(to: &mut PutBuffer, out: &mut O, summary: &Summary)
    ensures { Gathers O.holds O.faults out.old out.new to.old to.new (experiment_line summary.now) }
{
    put_field(to, out, b"experiment\tselected=", summary.selected.bytes());
    put_named(to, out, b"\tspeedup=", u64::from(summary.speedup));
    to.push(out, b"\tend=");
    put_ending(to, out, summary.outcome.ending);
    put_named(to, out, b"\ttime=", summary.outcome.time);
    put_named(to, out, b"\tdelay=", summary.outcome.delay);
    put_named(to, out, b"\tretired=", summary.outcome.retired);
    put_named(to, out, b"\tstarts=", summary.outcome.starts);
    to.push(out, b"\n");
}

fn put_output<O: Sink>(to: &mut PutBuffer, out: &mut O, summary: &Summary)
    ensures { Gathers O.holds O.faults out.old out.new to.old to.new (output_line summary.now) }
{
    put_named(to, out, b"output\tlength=", summary.length);
    put_digest(to, out, b"\tsha256=", &summary.output.bytes);
    to.push(out, b"\n");
}

fn put_count<O: Sink>(to: &mut PutBuffer, out: &mut O, index: usize, count: u64)
    ensures { Gathers O.holds O.faults out.old out.new to.old to.new (count_line (index, count)) }
{
    put_named(to, out, b"throughput-point\tindex=", index as u64);
    put_named(to, out, b"\tdelta=", count);
    to.push(out, b"\n");
}

fn put_counts<O: Sink>(to: &mut PutBuffer, out: &mut O, counts: &[u64])
    ensures { Gathers O.holds O.faults out.old out.new to.old to.new
        (flat_map count_line (enumerate_from 0 counts.now)) }
{
    for (index, count) in counts.iter().enumerate() {
        put_count(to, out, index, *count);
    }
}

fn put_visits<O: Sink>(to: &mut PutBuffer, out: &mut O, summary: &Summary)
    ensures { Gathers O.holds O.faults out.old out.new to.old to.new (visits_line summary.now) }
{
    put_digest(to, out, b"visits\tsha256=", &summary.visits.bytes);
    to.push(out, b"\n");
}

fn put_block<O: Sink>(to: &mut PutBuffer, out: &mut O, summary: &Summary)
    ensures { Gathers O.holds O.faults out.old out.new to.old to.new (block summary.now) }
{
    put_experiment(to, out, summary);
    put_output(to, out, summary);
    put_counts(to, out, summary.counts.as_slice());
    put_visits(to, out, summary);
}

/// Puts the block of each summary.
pub fn put_blocks<O: Sink>(to: &mut PutBuffer, out: &mut O, summaries: &[Summary])
    ensures { Gathers O.holds O.faults out.old out.new to.old to.new
        (flat_map block summaries.now) }
{
    for at in 0..summaries.len() {
        put_block(to, out, &summaries[at]);
    }
}
