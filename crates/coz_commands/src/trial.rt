//! The command `trial`: the profile of a program that a number makes, over some of its lines.
//!
//! No file is read. The source of `work_gen::source` is assembled, written as an ELF file in memory,
//! and read from there with `read_program`, as any program is. `tenths` selects the lines, and
//! `profile_pool::run_plan` runs the plan. Lengths, digests and the first curve are printed.
ghost use Rattle.std.specs.Prelude.{◌≡◌, ◌<◌, ◌≤◌, [], ◌∷◌, Ok, All, length, map, IsOk, IfOk, IfErr};
ghost use Rattle.std.specs.List.{AllByRecursion};
ghost use Rattle.std.specs.List.Sorted.{IsStrictlySortedBy};
ghost use Rattle.std.specs.Ordering.{nat_cmp};
ghost use Rattle.coz_types.specs.declared.TheConstants.{MAX_POINTS, MAX_WORKERS, MAX_SIZE};
ghost use Rattle.coz_types.specs.Ranges.{IsSummary};
ghost use Rattle.coz_types.specs.declared.LineId.{LineId};
ghost use Rattle.line_index.specs.Lines.{label_at};
ghost use Rattle.work_gen.specs.declared.TheConstants.{MAX_TEXT};
ghost use Rattle.work_gen.specs.Text.{view};
ghost use Rattle.work_gen.specs.Accepted.{IsAccepted};
ghost use Rattle.experiment_plan.specs.Selected.{ids};
ghost use Rattle.experiment_plan.specs.declared.experiment.Experiment.{Experiment};
ghost use Rattle.run_inputs.specs.Experiment.{runs_on};
ghost use Rattle.coz_commands.specs.declared.trial.TheConstants.{SELECTED};
ghost use Rattle.coz_commands.specs.Trial.{IsTrialFile, tenths, trial_plan, trial_point, trial_profile};
ghost use Rattle.coz_commands.specs.Verdict.{file_verdict, trial_judging, trial_printed, trial_verdict};
ghost use Rattle.coz_commands.specs.Answer.{IsMemoryFault, IsOfTrial};

use crate::answer::Answer;
use crate::profile::profile_status;
use command_texts::{Printed, Text, trial_text};
use coz_files::Gate;
use coz_types::{Items, Label, LineId, MIN_VERSION, Summary};
use coz_words::Request;
use experiment_plan::{Plan, plan};
use image_write::write_elf;
use line_index::LineIndex;
use profile_book::Profile;
use profile_pool::run_plan;
use program_load::{Fault, Program, points_of, read_program};
use run_subject::Subject;
use rv_asm::assemble;
use std::alloc::{AllocError, Global};
use std::thread::Threads;
use timing_model::Timing;
use work_gen::{Generated, source};

/// The name of the source in the lines of its program.
const NAME: &[u8] = b"trial.s";

/// The number of lines that are selected at most.
const SELECTED: u64 = 10;

static SPEEDUPS: [u8; 4] = [0, 25, 50, 75];

/// The most instructions that each run of a trial retires.
const BUDGET: u64 = 100_000_000;

/// The program file of a trial's source.
#[tactic(auto, unfolding(crate::specs::Trial::trial_program, crate::specs::Trial::trial_file))]
fn trial_file<'r>(alloc: Global, source: &Generated) -> Result<Vec<u8>, Fault<'r>>
    requires accepted { IsAccepted (view source.now) }
    requires short { length source.now.text ≤ MAX_TEXT }
    ensures file { IfOk result (λ file. IsTrialFile (view source.now) file.items) }
    ensures memory { IfErr result IsMemoryFault }
{
    let assembled = assemble(alloc, source.text.as_slice())?;
    let file = write_elf(alloc, &assembled, NAME, MIN_VERSION)?;
    Ok(file)
}

/// Each line whose position is a multiple of a tenth of `count`, rounded up.
#[tactic(auto, unfolding(crate::specs::Trial::tenths))]
fn tenths(alloc: Global, count: u32) -> Result<Vec<LineId>, AllocError>
    ensures lines { IfOk result (λ lines. ids lines.items ≡ tenths count) }
    ensures rising { IfOk result (λ lines. IsStrictlySortedBy nat_cmp (ids lines.items)) }
    ensures below { IfOk result (λ lines. All (λ (line : LineId). line.0 < count) lines.items) }
    ensures few { IfOk result (λ lines. length lines.items ≤ SELECTED) }
{
    let tenth = (u64::from(count) + 9) / SELECTED;
    let mut lines = Vec::new(alloc);
    for i in 0..SELECTED {
        let position = i * tenth;
        if position < u64::from(count) {
            lines.push(LineId(position as u32))?;
        }
    }
    Ok(lines)
}

/// The line of a trial's progress point.
fn point_line(index: &LineIndex, point: u32) -> LineId
    requires { IsOk (trial_point point index.now.lines) }
    ensures point { trial_point point index.now.lines ≡ Ok result.0 }
    ensures within { result.0 < length index.now.lines }
{
    match index.find(NAME, point) {
        Some(line) => line,
        None => unreachable!(),
    }
}

/// The label of a line, by itself.
fn only_label(alloc: Global, index: &LineIndex, line: LineId) -> Result<Items<Label>, AllocError>
    requires { line.0 < length index.now.lines }
    ensures { IfOk result (λ labels. labels ≡ map (label_at index.now.lines) (line.0 ∷ [])) }
{
    let mut labels = Vec::new(alloc);
    labels.push(Label::copy(alloc, index.label(line).bytes())?)?;
    Ok(Items::new(labels))
}

/// The pairs of a trial's runs.
fn trial_plan<'r>(alloc: Global, index: &LineIndex) -> Result<Plan, Fault<'r>>
    ensures plan { IfOk result (λ plan. plan ≡ trial_plan index.now.lines) }
    ensures below { IfOk result
        (All (λ (pair : Experiment). pair.line.0 < length index.now.lines)) }
    ensures memory { IfErr result IsMemoryFault }
{
    let lines = tenths(alloc, index.count())?;
    let plan = plan(alloc, &lines, SPEEDUPS.as_slice())?;
    Ok(plan)
}

/// The summaries of a trial's runs, with this line as the progress point.
fn trial_summaries<'r, R: Threads + Sync, G: Gate>(
    rt: &R,
    alloc: Global,
    program: &Program,
    point: LineId,
    workers: u32,
    gate: &G,
) -> Result<Items<Summary>, Fault<'r>>
    requires point { point.0 < length program.now.index.lines }
    requires some_workers { 1 ≤ workers }
    requires few_workers { workers ≤ MAX_WORKERS }
    ensures summaries { IfOk result (λ summaries. summaries ≡
        (trial_profile (runs_on program.now []) program.now.index.lines point.0).summaries) }
    ensures ranges { IfOk result (AllByRecursion (IsSummary 1)) }
    ensures memory { IfErr result IsMemoryFault }
{
    let plan = trial_plan(alloc, &program.index)?;
    let points = points_of(alloc, &program.index, &[point])?;
    let subject = Subject {
        image: &program.image,
        index: &program.index,
        points: &points,
        timing: Timing::usual(),
        input: &[],
    };
    let summaries = run_plan(rt, alloc, &subject, &plan, BUDGET, workers, gate)?;
    Ok(Items::new(summaries))
}

/// The profile of a trial's program, with this line as its progress point.
fn trial_profile<'r, R: Threads + Sync, G: Gate>(
    rt: &R,
    alloc: Global,
    program: &Program,
    point: LineId,
    workers: u32,
    gate: &G,
) -> Result<Profile, Fault<'r>>
    requires point { point.0 < length program.now.index.lines }
    requires some_workers { 1 ≤ workers }
    requires few_workers { workers ≤ MAX_WORKERS }
    ensures profile { IfOk result (λ profile.
        profile ≡ trial_profile (runs_on program.now []) program.now.index.lines point.0) }
    ensures points { IfOk result (λ profile. length profile.points ≡ 1) }
    ensures ranges { IfOk result (λ profile. AllByRecursion (IsSummary 1) profile.summaries) }
    ensures whole { IfOk result (λ profile.
        length profile.summaries ≡ length (trial_plan program.now.index.lines)) }
    ensures memory { IfErr result IsMemoryFault }
{
    let points = only_label(alloc, &program.index, point)?;
    let summaries = trial_summaries(rt, alloc, program, point, workers, gate)?;
    Ok(Profile {
        budget: BUDGET,
        points,
        summaries,
    })
}

/// The text of a trial with this profile.
fn printed_trial<'r>(
    alloc: Global,
    source: &Generated,
    index: &LineIndex,
    profile: &Profile,
) -> Answer<'r>
    requires points { length profile.now.points ≤ MAX_POINTS }
    requires ranges { AllByRecursion (IsSummary (length profile.now.points)) profile.now.summaries }
    requires whole { length profile.now.summaries ≡ length (trial_plan index.now.lines) }
    ensures { IsOfTrial (trial_printed (view source.now) index.now.lines profile.now) result }
{
    let text = trial_text(alloc, source, index, profile)?;
    Ok(Printed {
        status: profile_status(profile),
        text: Text::Bytes(text),
    })
}

/// The text of a trial whose program has these lines.
fn program_answer<'r, R: Threads + Sync, G: Gate>(
    rt: &R,
    alloc: Global,
    source: &Generated,
    program: &Program,
    workers: u32,
    gate: &G,
) -> Answer<'r>
    requires point { IsOk (trial_point source.now.point program.now.index.lines) }
    requires some_workers { 1 ≤ workers }
    requires few_workers { workers ≤ MAX_WORKERS }
    ensures { IsOfTrial (trial_judging (view source.now)
        program.now.index.lines (runs_on program.now [])) result }
{
    let point = point_line(&program.index, source.point);
    let profile = trial_profile(rt, alloc, program, point, workers, gate)?;
    let answer = printed_trial(alloc, source, &program.index, &profile);
    // By one call, since a drop in place is proved part by part.
    drop(profile);
    answer
}

/// The text of a trial with this file.
fn file_answer<'r, R: Threads + Sync, G: Gate>(
    rt: &R,
    alloc: Global,
    source: &Generated,
    file: &[u8],
    workers: u32,
    gate: &G,
) -> Answer<'r>
    requires file { IsTrialFile (view source.now) file.now }
    requires some_workers { 1 ≤ workers }
    requires few_workers { workers ≤ MAX_WORKERS }
    ensures { IsOfTrial (file_verdict (trial_judging (view source.now)) file.now []) result }
{
    let program = read_program(alloc, file)?;
    let answer = program_answer(rt, alloc, source, &program, workers, gate);
    // By one call, since a drop in place is proved part by part.
    drop(program);
    answer
}

/// The text of the trial that a request asks for.
#[tactic(auto, unfolding(crate::specs::Verdict::trial_verdict))]
pub fn judge_trial<'r, R: Threads + Sync, G: Gate>(
    rt: &R,
    alloc: Global,
    request: &'r Request,
    gate: &G,
) -> Answer<'r>
    requires least { 1 ≤ request.now.size }
    requires most { request.now.size ≤ MAX_SIZE }
    requires some_workers { 1 ≤ request.now.workers }
    requires few_workers { request.now.workers ≤ MAX_WORKERS }
    ensures { IsOfTrial (trial_verdict request.now.seed request.now.size) result }
{
    let source = source(alloc, request.seed, request.size)?;
    let file = trial_file(alloc, &source)?;
    file_answer(rt, alloc, &source, &file, request.workers, gate)
}
