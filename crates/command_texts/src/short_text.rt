//! The text of a shortened run.
ghost use Rattle.std.specs.Prelude.{◌≡◌, ◌≤◌, map, IfOk, All};
ghost use Rattle.coz_files.specs.Gathered.{Gathers};
ghost use Rattle.coz_types.specs.declared.record.Visit.{Visit};
ghost use Rattle.machines.specs.KeptVisits.{net_of};
ghost use Rattle.command_texts.specs.Text.{net_outcome_text, net_visit_text, net_visits_text, really_text};
ghost use Rattle.command_texts.specs.Record.{net_record_of};

use crate::record::ShortRecord;
use crate::text::{put_output, put_visit_head};
use coz_files::{PutBuffer, Sink};
use coz_types::Visit;
use profile_book::{TextWriter, put_end, put_line};
use std::alloc::{AllocError, Global};

fn put_outcome<'a, O: Sink>(to: &mut PutBuffer, out: &mut O, run: ShortRecord<'a>)
    ensures { Gathers O.holds O.faults out.old out.new to.old to.new
        (net_outcome_text (net_record_of run.entry)) }
{
    put_end(to, out, run.ending);
    put_line(to, out, b"net ", run.net);
    put_line(to, out, b"retired ", run.retired);
    put_line(to, out, b"starts ", run.starts);
}

fn put_net_visit<O: Sink>(to: &mut PutBuffer, out: &mut O, visit: Visit)
    requires { visit.delay ≤ visit.time }
    ensures { Gathers O.holds O.faults out.old out.new to.old to.new
        (net_visit_text (net_of visit)) }
{
    put_visit_head(to, out, visit);
    put_line(to, out, b" net ", visit.time - visit.delay);
}

/// Puts a line for each visit of a progress point: the point, the hart, and when it was in net
/// ticks.
pub fn put_net_visits<O: Sink>(to: &mut PutBuffer, out: &mut O, visits: &[Visit])
    requires { All (λ (v : Visit). v.delay ≤ v.time) visits.now }
    ensures { Gathers O.holds O.faults out.old out.new to.old to.new
        (net_visits_text (map net_of visits.now)) }
{
    for visit in visits {
        put_net_visit(to, out, *visit);
    }
}

fn put_short<'a, O: Sink>(to: &mut PutBuffer, out: &mut O, run: ShortRecord<'a>)
    requires { All (λ (v : Visit). v.delay ≤ v.time) run.visits.now }
    ensures { Gathers O.holds O.faults out.old out.new to.old to.new
        (really_text (net_record_of run.entry)) }
{
    put_outcome(to, out, run);
    put_net_visits(to, out, run.visits);
    put_output(to, out, run.output);
}

/// The text that `really` prints.
pub fn really_text<'a>(alloc: Global, run: ShortRecord<'a>) -> Result<Vec<u8>, AllocError>
    requires { All (λ (v : Visit). v.delay ≤ v.time) run.visits.now }
    ensures { IfOk result (λ text. text.items ≡ really_text (net_record_of run.entry)) }
{
    let mut text = TextWriter::new(alloc);
    put_short(&mut text.to, &mut text.out, run);
    text.finish()
}
