//! The text of the record of a run.
ghost use Rattle.std.specs.Prelude.{◌≡◌, ◌≤◌, map, IfOk, All};
ghost use Rattle.coz_files.specs.Gathered.{Gathers};
ghost use Rattle.delay_credits.specs.Delays.{account_as};
ghost use Rattle.machines.specs.KeptVisits.{visit_as};
ghost use Rattle.command_texts.specs.Text.{outcome_text, hart_text, harts_text, visit_text, visit_head, visits_text, output_text, run_text};
ghost use Rattle.command_texts.specs.Record.{record_of};
ghost use Rattle.coz_types.specs.declared.record.Visit.{Visit};

use crate::record::RunRecord;
use coz_files::{PutBuffer, Sink};
use coz_types::{Account, Visit};
use profile_book::{TextWriter, put_end, put_line, put_named};
use std::alloc::{AllocError, Global};

fn put_outcome<'a, O: Sink>(to: &mut PutBuffer, out: &mut O, run: RunRecord<'a>)
    requires { run.outcome.delay ≤ run.outcome.time }
    ensures { Gathers O.holds O.faults out.old out.new to.old to.new
        (outcome_text (record_of run.entry)) }
{
    let outcome = run.outcome;
    put_end(to, out, outcome.ending);
    put_line(to, out, b"time ", outcome.time);
    put_line(to, out, b"delay ", outcome.delay);
    put_line(to, out, b"net ", outcome.time - outcome.delay);
    put_line(to, out, b"retired ", outcome.retired);
    put_line(to, out, b"starts ", outcome.starts);
}

fn put_hart<O: Sink>(to: &mut PutBuffer, out: &mut O, number: u64, account: Account)
    ensures { Gathers O.holds O.faults out.old out.new to.old to.new
        (hart_text number (account_as account)) }
{
    put_named(to, out, b"hart ", number);
    put_named(to, out, b" own ", account.own);
    put_named(to, out, b" paused ", account.paused);
    put_line(to, out, b" credited ", account.credited);
}

fn put_harts<O: Sink>(to: &mut PutBuffer, out: &mut O, accounts: &[Account])
    ensures { Gathers O.holds O.faults out.old out.new to.old to.new
        (harts_text 0 (map account_as accounts.now)) }
{
    for (number, account) in accounts.iter().enumerate() {
        put_hart(to, out, number as u64, *account);
    }
}

/// Puts the point of a visit and its hart.
pub fn put_visit_head<O: Sink>(to: &mut PutBuffer, out: &mut O, visit: Visit)
    ensures { Gathers O.holds O.faults out.old out.new to.old to.new
        (visit_head visit.point.0 visit.hart.0) }
{
    put_named(to, out, b"visit ", visit.point.0 as u64);
    put_named(to, out, b" hart ", visit.hart.0 as u64);
}

fn put_visit<O: Sink>(to: &mut PutBuffer, out: &mut O, visit: Visit)
    requires { visit.delay ≤ visit.time }
    ensures { Gathers O.holds O.faults out.old out.new to.old to.new
        (visit_text (visit_as visit)) }
{
    put_visit_head(to, out, visit);
    put_named(to, out, b" time ", visit.time);
    put_named(to, out, b" delay ", visit.delay);
    put_line(to, out, b" net ", visit.time - visit.delay);
}

fn put_visits<O: Sink>(to: &mut PutBuffer, out: &mut O, visits: &[Visit])
    requires { All (λ (v : Visit). v.delay ≤ v.time) visits.now }
    ensures { Gathers O.holds O.faults out.old out.new to.old to.new
        (visits_text (map visit_as visits.now)) }
{
    for visit in visits {
        put_visit(to, out, *visit);
    }
}

/// Puts the output and its length.
pub fn put_output<O: Sink>(to: &mut PutBuffer, out: &mut O, output: &[u8])
    ensures { Gathers O.holds O.faults out.old out.new to.old to.new (output_text output.now) }
{
    put_line(to, out, b"output ", output.len() as u64);
    to.push(out, output);
    to.push(out, b"\n");
}

fn put_run<'a, O: Sink>(to: &mut PutBuffer, out: &mut O, run: RunRecord<'a>)
    requires net { run.outcome.delay ≤ run.outcome.time }
    requires net_visits { All (λ (v : Visit). v.delay ≤ v.time) run.visits.now }
    ensures { Gathers O.holds O.faults out.old out.new to.old to.new
        (run_text (record_of run.entry)) }
{
    put_outcome(to, out, run);
    put_harts(to, out, run.accounts);
    put_visits(to, out, run.visits);
    put_output(to, out, run.output);
}

/// The text that `run` prints.
pub fn run_text<'a>(alloc: Global, run: RunRecord<'a>) -> Result<Vec<u8>, AllocError>
    requires net { run.outcome.delay ≤ run.outcome.time }
    requires net_visits { All (λ (v : Visit). v.delay ≤ v.time) run.visits.now }
    ensures { IfOk result (λ text. text.items ≡ run_text (record_of run.entry)) }
{
    let mut text = TextWriter::new(alloc);
    put_run(&mut text.to, &mut text.out, run);
    text.finish()
}
