//! The runs of a plan, by workers.
ghost use Rattle.std.specs.Prelude.{◌≡◌, ◌<◌, ◌≤◌, IfOk, IfSome, length, All};
ghost use Rattle.coz_types.specs.declared.TheConstants.{MAX_BUDGET, MAX_WORKERS};
ghost use Rattle.coz_types.specs.Ranges.{IsSummary};
ghost use Rattle.experiment_plan.specs.declared.experiment.Experiment.{Experiment};
ghost use Rattle.profile_pool.specs.Plain.{IsPlain};
ghost use Rattle.profile_pool.specs.Subjects.{summaries_on};
ghost use Rattle.profile_pool.specs.Summaries.{summaries_of};
ghost use Rattle.run_engine.specs.Run.{IsMachine};
ghost use Rattle.timing_model.specs.Timing.{IsUsual};

use crate::plain::{Plain, plain_if_worth};
use crate::work::Work;
use claim_workers::run_claims;
use coz_files::Gate;
use coz_types::{LineId, Summary};
use experiment_plan::Plan;
use run_subject::Subject;
use std::alloc::{AllocError, Global};
use std::thread::Threads;
use virtual_run::{Choice, Lead};

/// The summary of the run of each pair of a plan, by workers, after the run with no line selected
/// if that was made.
fn run_from<R: Threads + Sync, G: Gate>(
    rt: &R,
    alloc: Global,
    subject: &Subject,
    plan: &Plan,
    budget: u64,
    workers: u32,
    gate: &G,
    plain: &Option<Plain>,
) -> Result<Vec<Summary>, AllocError>
    requires lines { All (λ (pair : Experiment).
        pair.line.0 < length subject.now.index.now.lines) plan.now }
    requires some_budget { 1 ≤ budget }
    requires few { budget ≤ MAX_BUDGET }
    requires machine { IsMachine subject.now.timing budget }
    requires some_workers { 1 ≤ workers }
    requires few_workers { workers ≤ MAX_WORKERS }
    requires plain { IfSome plain.now
        (IsPlain subject.now budget) }
    ensures summaries { IfOk result (λ summaries.
        summaries.items ≡ summaries_on subject.now budget plan.now) }
    ensures ranges { IfOk result (λ summaries.
        All (IsSummary (length subject.now.points.now.lines)) summaries.items) }
{
    let choice = Choice::usual(Some(LineId(0)), 0, budget);
    let lead = Lead::on(
        alloc,
        subject.image,
        subject.index,
        subject.points,
        subject.timing,
        subject.input,
        choice,
    )?;
    let work = Work {
        subject: *subject,
        plan,
        first: &lead,
        plain,
        budget,
    };
    let summaries = run_claims(rt, alloc, &work, workers, gate);
    // By one call, since a drop in place is proved part by part.
    drop(lead);
    summaries
}

/// The summary of the run of each pair of a plan, on the machine of the subject.
fn run_lines<R: Threads + Sync, G: Gate>(
    rt: &R,
    alloc: Global,
    subject: &Subject,
    plan: &Plan,
    budget: u64,
    workers: u32,
    gate: &G,
) -> Result<Vec<Summary>, AllocError>
    requires lines { All (λ (pair : Experiment).
        pair.line.0 < length subject.now.index.now.lines) plan.now }
    requires some_budget { 1 ≤ budget }
    requires few { budget ≤ MAX_BUDGET }
    requires machine { IsMachine subject.now.timing budget }
    requires some_workers { 1 ≤ workers }
    requires few_workers { workers ≤ MAX_WORKERS }
    ensures summaries { IfOk result (λ summaries.
        summaries.items ≡ summaries_on subject.now budget plan.now) }
    ensures ranges { IfOk result (λ summaries.
        All (IsSummary (length subject.now.points.now.lines)) summaries.items) }
{
    let lines = plan.line_count();
    if lines == 0 {
        return Ok(Vec::new(alloc));
    }
    let plain = plain_if_worth(alloc, subject, lines, budget)?;
    // A worker with no line would make its machines for nothing.
    let workers = workers.min(lines);
    let summaries = run_from(rt, alloc, subject, plan, budget, workers, gate, &plain);
    // By one call, since a drop in place is proved part by part.
    drop(plain);
    summaries
}

/// The summary of the run of each pair of a plan, in the plan's order, whatever the number
/// of workers and the gate. It fails only if it is out of memory, and then the other
/// workers finish their claims. On the usual machine the runs are those of the guest alone.
pub fn run_plan<R: Threads + Sync, G: Gate>(
    rt: &R,
    alloc: Global,
    subject: &Subject,
    plan: &Plan,
    budget: u64,
    workers: u32,
    gate: &G,
) -> Result<Vec<Summary>, AllocError>
    requires lines { All (λ (pair : Experiment).
        pair.line.0 < length subject.now.index.now.lines) plan.now }
    requires some_budget { 1 ≤ budget }
    requires few { budget ≤ MAX_BUDGET }
    requires machine { IsMachine subject.now.timing budget }
    requires some_workers { 1 ≤ workers }
    requires few_workers { workers ≤ MAX_WORKERS }
    ensures summaries { IfOk result (λ summaries.
        summaries.items ≡ summaries_on subject.now budget plan.now) }
    ensures usual { IsUsual subject.now.timing → IfOk result (λ summaries.
        summaries.items ≡ summaries_of subject.now.image.now subject.now.index.now
        subject.now.points.now subject.now.input.now budget plan.now) }
    ensures ranges { IfOk result (λ summaries.
        All (IsSummary (length subject.now.points.now.lines)) summaries.items) }
{
    // The speedups of a plan are known to a proof once its pairs are read.
    let _ = plan.pairs();
    run_lines(rt, alloc, subject, plan, budget, workers, gate)
}
