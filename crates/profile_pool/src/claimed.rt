//! The work of a claim: the runs of all pairs of a line.
ghost use Rattle.std.specs.Prelude.{◌≡◌, ◌<◌, ◌≤◌, [], Some, length, map, All, IfOk, MatchOption};
ghost use Rattle.coz_types.specs.declared.TheConstants.{MAX_SPEEDUP};
ghost use Rattle.coz_types.specs.Ranges.{IsSummary};
ghost use Rattle.experiment_plan.specs.ByLine.{by_line};
ghost use Rattle.experiment_plan.specs.declared.experiment.Experiment.{Experiment};
ghost use Rattle.profile_pool.specs.Made.{parts_made, made_for, IsFor, AreFor};
ghost use Rattle.profile_pool.specs.Plain.{starts_in};
ghost use Rattle.profile_pool.specs.Work.{summary_of_pair, work_at, IsTakenFrom, IsWork, IsLed};

use crate::known::{KnownOutput, no_output};
use crate::plain::Plain;
use crate::summary::summarise;
use crate::work::{Runner, Work};
use claim_workers::ClaimWork;
use coz_types::{Items, LineId, Summary};
use experiment_plan::Experiment;
use run_summary::{is_undelayed, relabelled};
use std::alloc::{AllocError, Global};
use virtual_run::{Choice, Lead, Machine};

/// Brings a lead up to the first start of a line.
fn lead_up<'a>(work: &Work<'a>, lead: &mut Lead<'a>, line: LineId)
    requires work { IsWork work.now }
    requires lead { IsFor work.now lead.old }
    ensures { parts_made lead.new ≡ made_for work.now (Some line.0) 0 }
{
    lead.again(work.first, line);
    lead.run();
}

/// Brings a lead up to the first start of a line, unless it is known that the line never starts.
fn take_up<'a>(work: &Work<'a>, lead: &mut Lead<'a>, line: LineId)
    requires work { IsWork work.now }
    requires line { line.0 < length work.now.subject.index.now.lines }
    requires lead { IsFor work.now lead.old }
    ensures lead { IsFor work.now lead.new }
    ensures led { IsLed work.now lead.new line.0 }
{
    if let Some(0) = starts_of(work, line) {
        return;
    }
    lead_up(work, lead, line);
}

/// The number of starts of a line at speedup 0, if it is known.
fn starts_of(work: &Work, line: LineId) -> Option<u64>
    requires work { IsWork work.now }
    requires line { line.0 < length work.now.subject.index.now.lines }
    ensures { result ≡ starts_in work.now.plain.now line.0 }
{
    match work.plain {
        Some(plain) => Some(plain.starts[line.0 as usize]),
        None => None,
    }
}

/// The run with no line selected, if the run of a pair differs from it only in its label,
/// its speedup and its starts: at speedup 0, and if the line never starts.
fn plain_of<'a>(work: &Work<'a>, pair: Experiment) -> Option<&'a Plain>
    requires work { IsWork work.now }
    requires line { pair.line.0 < length work.now.subject.index.now.lines }
    ensures { MatchOption result (¬ (starts_in work.now.plain.now pair.line.0 ≡ Some 0))
        (λ plain. IsTakenFrom work.now plain.now pair) }
{
    match work.plain {
        Some(plain) => {
            let starts = plain.starts[pair.line.0 as usize];
            if is_undelayed(pair.speedup, starts) {
                Some(plain)
            } else {
                None
            }
        }
        None => None,
    }
}

/// The summary of the run of a pair that differs from the run with no line selected only in its
/// label, its speedup and its starts.
fn plain_pair(
    alloc: Global,
    work: &Work,
    plain: &Plain,
    pair: Experiment,
) -> Result<Summary, AllocError>
    requires line { pair.line.0 < length work.now.subject.index.now.lines }
    requires speedup { pair.speedup ≤ MAX_SPEEDUP }
    requires plain { IsTakenFrom work.now plain.now pair }
    ensures summary { IfOk result (λ summary. summary ≡ summary_of_pair work.now pair) }
    ensures ranges { IfOk result (IsSummary (length work.now.subject.points.now.lines)) }
{
    let starts = plain.starts[pair.line.0 as usize];
    let label = work.subject.index.label(pair.line);
    relabelled(alloc, &plain.summary, label.bytes(), pair.speedup, starts)
}

/// The summary of the run of a pair, which is forked from the lead of its line.
fn run_pair<'a>(
    alloc: Global,
    work: &Work<'a>,
    lead: &Lead<'a>,
    machine: &mut Machine<'a>,
    known: &mut KnownOutput,
    pair: Experiment,
) -> Result<Summary, AllocError>
    requires line { pair.line.0 < length work.now.subject.index.now.lines }
    requires speedup { pair.speedup ≤ MAX_SPEEDUP }
    requires lead { parts_made lead.now ≡ made_for work.now (Some pair.line.0) 0 }
    requires machine { IsFor work.now machine.old }
    ensures machine { IsFor work.now machine.new }
    ensures summary { IfOk result (λ summary. summary ≡ summary_of_pair work.now pair) }
    ensures ranges { IfOk result (IsSummary (length work.now.subject.points.now.lines)) }
{
    lead.fork(machine, pair.speedup);
    machine.run();
    summarise(
        alloc,
        machine,
        work.subject.index.label(pair.line),
        pair.speedup,
        work.subject.points,
        known,
    )
}

/// The summary of the run of a pair, which is forked from the lead of its line if it has to be.
fn make_pair<'a>(
    alloc: Global,
    work: &Work<'a>,
    lead: &Lead<'a>,
    machine: &mut Machine<'a>,
    known: &mut KnownOutput,
    pair: Experiment,
) -> Result<Summary, AllocError>
    requires work { IsWork work.now }
    requires line { pair.line.0 < length work.now.subject.index.now.lines }
    requires speedup { pair.speedup ≤ MAX_SPEEDUP }
    requires lead { IsLed work.now lead.now pair.line.0 }
    requires machine { IsFor work.now machine.old }
    ensures machine { IsFor work.now machine.new }
    ensures summary { IfOk result (λ summary. summary ≡ summary_of_pair work.now pair) }
    ensures ranges { IfOk result (IsSummary (length work.now.subject.points.now.lines)) }
{
    match plain_of(work, pair) {
        Some(plain) => plain_pair(alloc, work, plain, pair),
        None => run_pair(alloc, work, lead, machine, known, pair),
    }
}

/// Adds the summary of the run of each of some pairs, forked from the lead of their line.
fn run_pairs<'a>(
    alloc: Global,
    work: &Work<'a>,
    lead: &Lead<'a>,
    machine: &mut Machine<'a>,
    known: &mut KnownOutput,
    pairs: &[Experiment],
    summaries: &mut Vec<Summary>,
) -> Result<(), AllocError>
    requires work { IsWork work.now }
    requires lines { All (λ (pair : Experiment).
        pair.line.0 < length work.now.subject.index.now.lines) pairs.now }
    requires speedups { All (λ (pair : Experiment). pair.speedup ≤ MAX_SPEEDUP) pairs.now }
    requires lead { All (λ (pair : Experiment).
        IsLed work.now lead.now pair.line.0) pairs.now }
    requires machine { IsFor work.now machine.old }
    requires summaries { summaries.old.items ≡ [] }
    ensures machine { IsFor work.now machine.new }
    ensures summaries { IfOk result (λ _.
        summaries.new.items ≡ map (summary_of_pair work.now) pairs.now) }
    ensures ranges { IfOk result (λ _.
        All (IsSummary (length work.now.subject.points.now.lines)) summaries.new.items) }
{
    for pair in pairs {
        let summary = make_pair(alloc, work, lead, machine, known, *pair)?;
        summaries.push(summary)?;
    }
    Ok(())
}

impl<'a> ClaimWork for Work<'a> {
    type Runner = Runner<'a>;

    ghost is_ready = { IsWork };

    ghost bound = { λ work. length (by_line work.plan.now) };

    ghost summaries_of_claim = { work_at };

    ghost points = { λ work. length work.subject.points.now.lines };

    ghost is_for = { AreFor };

    /// The number of lines of the plan: a claim is a line.
    fn count(&self) -> u32 {
        self.plan.line_count()
    }

    /// A lead and a machine of the program. Which line is selected at first doesn't matter.
    fn runner(&self, alloc: Global) -> Result<Runner<'a>, AllocError> {
        let choice = Choice::usual(Some(LineId(0)), 0, self.budget);
        let lead = Lead::on(
            alloc,
            self.subject.image,
            self.subject.index,
            self.subject.points,
            self.subject.timing,
            self.subject.input,
            choice,
        )?;
        match Machine::on(
            alloc,
            self.subject.image,
            self.subject.index,
            self.subject.points,
            self.subject.timing,
            self.subject.input,
            choice,
        ) {
            Ok(machine) => Ok(Runner {
                lead,
                machine,
                known: no_output(alloc),
            }),
            Err(error) => {
                // By one call, since a drop in place is proved part by part.
                drop(lead);
                Err(error)
            }
        }
    }

    /// The summary of the run of each pair of the line at that place of the plan.
    fn summaries(
        &self,
        alloc: Global,
        runner: &mut Runner<'a>,
        claim: u32,
    ) -> Result<Items<Summary>, AllocError> {
        let pairs = self.plan.of_line(claim);
        take_up(self, &mut runner.lead, pairs[0].line);
        let mut summaries = Vec::with_capacity(alloc, pairs.len())?;
        let lead = &runner.lead;
        match run_pairs(
            alloc,
            self,
            lead,
            &mut runner.machine,
            &mut runner.known,
            pairs,
            &mut summaries,
        ) {
            Ok(()) => Ok(Items::new(summaries)),
            Err(error) => {
                // By one call, since a drop in place is proved part by part.
                drop(summaries);
                Err(error)
            }
        }
    }
}
