//! The command `profile`.
ghost use Rattle.std.specs.Prelude.{◌≡◌, ◌<◌, ◌≤◌, ℕ, List, length, map, All, IfOk, IfSome, IfNone};
ghost use Rattle.std.specs.List.{list_all};
ghost use Rattle.std.specs.List.Sorted.{IsStrictlySortedBy};
ghost use Rattle.std.specs.Ordering.{nat_cmp};
ghost use Rattle.coz_types.specs.declared.LineId.{LineId};
ghost use Rattle.coz_types.specs.declared.TheConstants.{MAX_POINTS, MAX_PROGRAM, MAX_SPEEDUP};
ghost use Rattle.coz_files.specs.Faults.{Rose};
ghost use Rattle.coz_types.specs.declared.record.Summary.{Summary};
ghost use Rattle.line_index.specs.Lines.{label_at};
ghost use Rattle.progress_points.specs.Points.{IsPoints};
ghost use Rattle.experiment_plan.specs.declared.experiment.Experiment.{Experiment};
ghost use Rattle.experiment_plan.specs.Selected.{ids};
ghost use Rattle.coz_words.specs.Request.{IsFit};
ghost use Rattle.run_engine.specs.Run.{IsMachine};
ghost use Rattle.coz_commands.specs.Profiled.{pairs_of, profile_from, delayed_records, timed_in, Records};
ghost use Rattle.coz_commands.specs.Verdict.{Verdict, bytes_verdict, files_verdict, has_exited, machine_verdict, plan_verdict, profile_verdict, profiled_verdict, recorded_verdict};
ghost use Rattle.coz_commands.specs.Answer.{verdict_of, verdict_after, printed_verdict, IsMemory, FailedToRead, Suits, Settles};

use crate::answer::Answer;
use command_texts::{Printed, Text, has_exited};
use coz_files::{Files, Gate};
use coz_types::{Ending, Items, Label, LineId, PointId, Summary};
use coz_words::Request;
use experiment_plan::{Plan, plan};
use line_index::LineIndex;
use profile_book::Profile;
use profile_pool::run_plan;
use program_load::{Fault, Program, bytes_of, progress_points, read_program, selected_lines};
use progress_points::Points;
use run_inputs::read_inputs;
use run_subject::Subject;
use std::alloc::{AllocError, Global};
use std::thread::Threads;
use timing_model::Timing;

/// The labels of the points' lines.
fn point_labels(
    alloc: Global,
    index: &LineIndex,
    points: &Points,
) -> Result<Items<Label>, AllocError>
    requires few { length points.now.lines ≤ MAX_POINTS }
    requires below { All (λ line. line < length index.now.lines) points.now.lines }
    ensures { IfOk result (λ labels. labels ≡ map (label_at index.now.lines) points.now.lines) }
{
    let mut labels = Vec::new(alloc);
    for point in 0..points.count() {
        let line = points.line(PointId(point as u16));
        labels.push(Label::copy(alloc, index.label(line).bytes())?)?;
    }
    Ok(Items::new(labels))
}

/// Whether each run exited.
fn all_exited(summaries: &[Summary]) -> bool
    ensures { result ≡ list_all (λ (s : Summary). has_exited s.outcome.ending) summaries.now }
{
    summaries
        .iter()
        .all(|summary| has_exited(summary.outcome.ending))
}

/// The status of runs: 0 if each exited.
pub fn profile_status(profile: &Profile) -> u8
    ensures status { result ≡ (profile_verdict profile.now).status }
    ensures low { result ≤ 1 }
{
    if all_exited(profile.summaries.as_slice()) {
        0
    } else {
        1
    }
}

/// A profile that is to be written, and its status.
fn printed_profile(profile: Profile) -> Printed
    ensures { printed_verdict result ≡ profile_verdict profile }
{
    Printed {
        status: profile_status(&profile),
        text: Text::Profile(profile),
    }
}

/// The plan of these lines and speedups, if it isn't too large.
fn planned<'r>(alloc: Global, lines: &[LineId], speedups: &[u8]) -> Result<Plan, Fault<'r>>
    requires rising { IsStrictlySortedBy nat_cmp (ids lines.now) }
    requires small { All (λ speedup. speedup ≤ MAX_SPEEDUP) speedups.now }
    ensures no_read { FailedToRead result → ⊥ }
    ensures verdict { (IsMemory result → ⊥) → (next : List Experiment → Verdict) →
        verdict_after result next ≡ plan_verdict (pairs_of (ids lines.now) speedups.now) next }
    ensures below { (count : ℕ) → All (λ (line : LineId). line.0 < count) lines.now →
        IfOk result (All (λ (pair : Experiment). pair.line.0 < count)) }
{
    let plan = plan(alloc, lines, speedups)?;
    Ok(plan)
}

/// The points and the plan of a profile.
#[derive(Drop)]
struct AskedPlan {
    points: Points,
    plan: Plan,
}

/// The points and the plan of a request for a profile, if the program has the lines
/// that are named and the plan isn't too large.
fn asked_plan<'r>(
    alloc: Global,
    index: &LineIndex,
    request: &'r Request,
) -> Result<AskedPlan, Fault<'r>>
    requires fit { IsFit request.now }
    ensures no_read { FailedToRead result → ⊥ }
    ensures verdict { (IsMemory result → ⊥) → (records : Records) →
        verdict_after result (λ asked. profile_verdict
        (profile_from records index.now.lines request.now.budget asked.points.lines asked.plan))
        ≡ recorded_verdict request.now index.now.lines records }
    ensures points { IfOk result (λ asked. IsPoints index.now asked.points.lines asked.points) }
    ensures few { IfOk result (λ asked. length asked.points.lines ≤ MAX_POINTS) }
    ensures below { IfOk result (λ asked.
        All (λ line. line < length index.now.lines) asked.points.lines) }
    ensures lines { IfOk result (λ asked.
        All (λ (pair : Experiment). pair.line.0 < length index.now.lines) asked.plan) }
{
    let lines = selected_lines(alloc, index, bytes_of(&request.lines))?;
    let points = progress_points(alloc, index, bytes_of(&request.progress))?;
    let plan = planned(alloc, &lines, request.speedups.as_slice())?;
    Ok(AskedPlan { points, plan })
}

/// The text of the profile of a plan on a machine.
#[tactic(auto, using(crate::proofs::Budgets::few_budget))]
fn plan_answer<'r, R: Threads + Sync, G: Gate>(
    rt: &R,
    alloc: Global,
    program: &Program,
    points: &Points,
    timing: Timing,
    input: &[u8],
    plan: &Plan,
    request: &'r Request,
    gate: &G,
) -> Answer<'r>
    requires fit { IsFit request.now }
    requires some_budget { 1 ≤ request.now.budget }
    requires machine { IsMachine timing request.now.budget }
    requires some_workers { 1 ≤ request.now.workers }
    requires points { IsPoints program.now.index points.now.lines points.now }
    requires few { length points.now.lines ≤ MAX_POINTS }
    requires below { All (λ line. line < length program.now.index.lines) points.now.lines }
    requires lines { All (λ (pair : Experiment). pair.line.0 < length program.now.index.lines) plan.now }
    ensures no_read { FailedToRead result → ⊥ }
    ensures verdict { (IsMemory result → ⊥) → verdict_of result ≡ profile_verdict
        (profile_from
        (delayed_records (timed_in timing program.now.image program.now.index input.now))
        program.now.index.lines request.now.budget points.now.lines plan.now) }
{
    let labels = point_labels(alloc, &program.index, points)?;
    let subject = Subject {
        image: &program.image,
        index: &program.index,
        points,
        timing,
        input,
    };
    // The speedups of a plan are known to a proof once its pairs are read.
    let _ = plan.pairs();
    let summaries = run_plan(
        rt,
        alloc,
        &subject,
        plan,
        request.budget,
        request.workers,
        gate,
    )?;
    Ok(printed_profile(Profile {
        budget: request.budget,
        points: labels,
        summaries: Items::new(summaries),
    }))
}

/// The text of the profile of a program on a machine, if it has the lines that are named and the
/// plan isn't too large.
fn profile_answer<'r, R: Threads + Sync, G: Gate>(
    rt: &R,
    alloc: Global,
    program: &Program,
    timing: Timing,
    input: &[u8],
    request: &'r Request,
    gate: &G,
) -> Answer<'r>
    requires fit { IsFit request.now }
    requires some_budget { 1 ≤ request.now.budget }
    requires machine { IsMachine timing request.now.budget }
    requires some_workers { 1 ≤ request.now.workers }
    ensures no_read { FailedToRead result → ⊥ }
    ensures verdict { (IsMemory result → ⊥) → verdict_of result ≡
        recorded_verdict request.now program.now.index.lines
        (delayed_records (timed_in timing program.now.image program.now.index input.now)) }
{
    let asked = asked_plan(alloc, &program.index, request)?;
    plan_answer(
        rt,
        alloc,
        program,
        &asked.points,
        timing,
        input,
        &asked.plan,
        request,
        gate,
    )
}

/// The text of the profile of the program that a request names, on a machine of the timing model.
/// Err is the first fault of the files, the program, its lines and the plan, or out of memory.
pub fn judge_profile_on<'r, R: Threads + Sync, F: Files, G: Gate>(
    rt: &R,
    alloc: Global,
    timing: Timing,
    request: &'r Request,
    files: &mut F,
    gate: &G,
) -> Answer<'r>
    requires fit { IsFit request.now }
    requires some_budget { 1 ≤ request.now.budget }
    requires machine { IsMachine timing request.now.budget }
    requires some_workers { 1 ≤ request.now.workers }
    ensures same { F.held files.new ≡ F.held files.old }
    ensures fault_of_request { Suits request.now result }
    ensures verdict { IfSome (F.held files.old) (λ held. (IsMemory result → ⊥) →
        Settles (bytes_verdict request.now held (machine_verdict timing request.now))
        (F.faults files.old) (F.faults files.new) result) }
    ensures read_fault_has_cause { FailedToRead result
        → IfNone (F.held files.old) (Rose (F.faults files.old) (F.faults files.new)) }
    ensures no_fault { (FailedToRead result → ⊥) → F.faults files.new ≡ F.faults files.old }
{
    let inputs = read_inputs(alloc, request, files)?;
    profile_of_file(
        rt,
        alloc,
        &inputs.program,
        timing,
        &inputs.input,
        request,
        gate,
    )
}

/// The text of the profile of the program that a request names, on the usual machine.
/// Err is the first fault of the files, the program, its lines and the plan, or out of memory.
#[tactic(auto, using(crate::proofs::Budgets::few_budget))]
pub fn judge_profile<'r, R: Threads + Sync, F: Files, G: Gate>(
    rt: &R,
    alloc: Global,
    request: &'r Request,
    files: &mut F,
    gate: &G,
) -> Answer<'r>
    requires fit { IsFit request.now }
    requires some_budget { 1 ≤ request.now.budget }
    requires some_workers { 1 ≤ request.now.workers }
    ensures same { F.held files.new ≡ F.held files.old }
    ensures fault_of_request { Suits request.now result }
    ensures verdict { IfSome (F.held files.old) (λ held. (IsMemory result → ⊥) →
        Settles (files_verdict request.now held (profiled_verdict request.now))
        (F.faults files.old) (F.faults files.new) result) }
    ensures read_fault_has_cause { FailedToRead result
        → IfNone (F.held files.old) (Rose (F.faults files.old) (F.faults files.new)) }
    ensures no_fault { (FailedToRead result → ⊥) → F.faults files.new ≡ F.faults files.old }
{
    judge_profile_on(rt, alloc, Timing::usual(), request, files, gate)
}

/// The text of the profile of the program in a file on a machine, or its first fault.
fn profile_of_file<'r, R: Threads + Sync, G: Gate>(
    rt: &R,
    alloc: Global,
    file: &[u8],
    timing: Timing,
    input: &[u8],
    request: &'r Request,
    gate: &G,
) -> Answer<'r>
    requires short { length file.now ≤ MAX_PROGRAM }
    requires fit { IsFit request.now }
    requires some_budget { 1 ≤ request.now.budget }
    requires machine { IsMachine timing request.now.budget }
    requires some_workers { 1 ≤ request.now.workers }
    ensures no_read { FailedToRead result → ⊥ }
    ensures verdict { (IsMemory result → ⊥) → verdict_of result
        ≡ machine_verdict timing request.now file.now input.now }
{
    let program = read_program(alloc, file)?;
    profile_answer(rt, alloc, &program, timing, input, request, gate)
}
