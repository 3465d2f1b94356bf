//! What the page says of the runs.
ghost use Rattle.std.specs.Prelude.{◌≡◌, option_copied, flat_map};
ghost use Rattle.coz_files.specs.Gathered.{Gathers};
ghost use Rattle.causal_curves.specs.Curves.{label_in, visits};
ghost use Rattle.page_cli.specs.Runs.{speedup_at, speedups_of, speedups_text, kind_text, kinds_text, warning_text, runs_text, plain_run, visits_of, visits_in, visits_text, warned};

use crate::frame::SCHEDULE;
use coz_files::{PutBuffer, Sink};
use coz_types::Summary;
use page_values::{count_of, others_of};
use profile_book::{Profile, put_named};

fn put_kind<O: Sink>(to: &mut PutBuffer, out: &mut O, summaries: &[Summary], kind: &[u8])
    ensures { Gathers O.holds O.faults out.old out.new to.old to.new
        (kind_text summaries.now kind.now) }
{
    let count = count_of(kind, summaries);
    if count > 0 {
        to.push(out, kind);
        put_named(to, out, b": ", count);
        to.push(out, b". ");
    }
}

fn put_kinds<O: Sink>(to: &mut PutBuffer, out: &mut O, summaries: &[Summary])
    ensures { Gathers O.holds O.faults out.old out.new to.old to.new
        (kinds_text summaries.now) }
{
    put_kind(to, out, summaries, b"trapped");
    put_kind(to, out, summaries, b"unsupported");
    put_kind(to, out, summaries, b"clock");
    put_kind(to, out, summaries, b"output-full");
    put_kind(to, out, summaries, b"visits-full");
    put_kind(to, out, summaries, b"stalled");
    put_kind(to, out, summaries, b"spent");
}

fn put_warned<O: Sink>(to: &mut PutBuffer, out: &mut O, others: u64, summaries: &[Summary])
    ensures { Gathers O.holds O.faults out.old out.new to.old to.new
        (warned others summaries.now) }
{
    let before = b"<p class=\"warning\">Warning: runs that did not exit: ";
    put_named(to, out, before, others);
    to.push(out, b". ");
    put_kinds(to, out, summaries);
    to.push(out, b"</p>\n");
}

fn put_warning<O: Sink>(to: &mut PutBuffer, out: &mut O, summaries: &[Summary])
    ensures { Gathers O.holds O.faults out.old out.new to.old to.new
        (warning_text summaries.now) }
{
    let others = others_of(summaries);
    if others != 0 {
        put_warned(to, out, others, summaries);
    }
}

fn put_speedup<O: Sink>(to: &mut PutBuffer, out: &mut O, label: &[u8], summary: &Summary)
    ensures { Gathers O.holds O.faults out.old out.new to.old to.new
        (speedup_at label.now summary.now) }
{
    if summary.selected.bytes() == label {
        put_named(to, out, b" ", summary.speedup as u64);
        to.push(out, b"%");
    }
}

fn put_each_speedup<O: Sink>(to: &mut PutBuffer, out: &mut O, label: &[u8], summaries: &[Summary])
    ensures { Gathers O.holds O.faults out.old out.new to.old to.new
        (flat_map (speedup_at label.now) summaries.now) }
{
    for summary in summaries {
        put_speedup(to, out, label, summary);
    }
}

fn put_speedups_of<O: Sink>(to: &mut PutBuffer, out: &mut O, label: &[u8], summaries: &[Summary])
    ensures { Gathers O.holds O.faults out.old out.new to.old to.new
        (speedups_of label.now summaries.now) }
{
    to.push(out, b" Speedups of the first line:");
    put_each_speedup(to, out, label, summaries);
    to.push(out, b".");
}

fn label_in(summaries: &[Summary]) -> &[u8]
    ensures { result.now ≡ label_in summaries.now }
{
    match summaries.first() {
        Some(first) => first.selected.bytes(),
        None => b"",
    }
}

/// The speedups of the first line, if there is one.
fn put_speedups<O: Sink>(to: &mut PutBuffer, out: &mut O, summaries: &[Summary])
    ensures { Gathers O.holds O.faults out.old out.new to.old to.new
        (speedups_text summaries.now) }
{
    if !summaries.is_empty() {
        put_speedups_of(to, out, label_in(summaries), summaries);
    }
}

/// Puts what was run, of how many schedules, and a warning if a run did not exit.
pub fn put_runs<O: Sink>(to: &mut PutBuffer, out: &mut O, profile: &Profile)
    ensures { Gathers O.holds O.faults out.old out.new to.old to.new (runs_text profile.now) }
{
    let summaries = profile.summaries.as_slice();
    put_named(to, out, b"<p>Budget of each run: ", profile.budget);
    put_named(to, out, b" instructions. Runs: ", summaries.len() as u64);
    to.push(out, b".");
    put_speedups(to, out, summaries);
    to.push(out, SCHEDULE);
    put_warning(to, out, summaries);
}

fn visits(point: u64, summary: &Summary) -> u64
    ensures { result ≡ visits point summary.now }
{
    match summary.counts.as_slice().get(point as usize) {
        Some(count) => *count,
        None => 0,
    }
}

fn plain_run(summaries: &[Summary]) -> Option<&Summary>
    ensures { option_copied result ≡ plain_run summaries.now }
{
    for summary in summaries {
        if summary.speedup == 0 {
            return Some(summary);
        }
    }
    None
}

fn put_count<O: Sink>(to: &mut PutBuffer, out: &mut O, point: u64, summary: &Summary)
    ensures { Gathers O.holds O.faults out.old out.new to.old to.new
        (visits_of point summary.now) }
{
    put_named(to, out, b"<p>Visits at speedup 0: ", visits(point, summary));
    to.push(out, b".</p>\n");
}

fn put_visits_in<O: Sink>(to: &mut PutBuffer, out: &mut O, point: u64, run: Option<&Summary>)
    ensures { Gathers O.holds O.faults out.old out.new to.old to.new
        (visits_in point (option_copied run.entry)) }
{
    if let Some(summary) = run {
        put_count(to, out, point, summary);
    }
}

/// The visits of a point in the first run at speedup 0, if there is one.
pub fn put_visits<O: Sink>(to: &mut PutBuffer, out: &mut O, summaries: &[Summary], point: u64)
    ensures { Gathers O.holds O.faults out.old out.new to.old to.new
        (visits_text summaries.now point) }
{
    put_visits_in(to, out, point, plain_run(summaries));
}
