//! The run with no line selected, which is the run of each line at speedup 0 but for its starts.
ghost use Rattle.std.specs.Prelude.{◌≡◌, ℕ, ◌<◌, ◌≤◌, ◌^◌, List, [], true, length, get_or, IfOk, IfSome, IsSome, Some, is_some};
ghost use Rattle.coz_types.specs.declared.TheConstants.{MAX_BUDGET, MAX_SPEEDUP};
ghost use Rattle.coz_types.specs.declared.ending.Ending.{Ending};
ghost use Rattle.coz_types.specs.Labels.{is_label};
ghost use Rattle.coz_types.specs.Ranges.{IsSummary};
ghost use Rattle.machines.specs.Records.{record_of};
ghost use Rattle.run_engine.specs.Seen.{experiment_of};
ghost use Rattle.profile_pool.specs.Summaries.{summary_of};
ghost use Rattle.run_summary.specs.Summaries.{relabelled};
ghost use Rattle.profile_pool.specs.Plain.{starts_at, IsPlain, SaysOf};
ghost use Rattle.profile_pool.specs.Worth.{is_worth};
ghost use Rattle.run_engine.specs.Run.{IsMachine};

use crate::outcomes::ended;
use crate::worth::is_worth;
use counted_run::Counted;
use coz_types::{LineId, Summary};
use line_index::LineIndex;
use progress_points::Points;
use run_subject::Subject;
use run_summary::{digest_of_bytes, summary_of_run};
use std::alloc::{AllocError, Global};
use virtual_run::Choice;

/// The run of a program with no line selected.
#[derive(Drop)]
pub struct Plain {
    /// The summary of the run, with an empty label.
    pub summary: Summary,
    /// The number of instructions of each line that were begun, by the position of the line.
    pub starts: Vec<u64>,
}

/// The summary of a run that has ended, with an empty label.
fn summarise_counted(
    alloc: Global,
    counted: &Counted,
    points: &Points,
) -> Result<Summary, AllocError>
    requires points { counted.now.points ≡ points.now }
    requires ended { IsSome counted.now.state.ending }
    ensures summary { (ending : Ending) → counted.now.state.ending ≡ Some ending
        → IfOk result (λ summary. summary ≡ summary_of [] 0 (length points.now.lines)
        (record_of (experiment_of counted.now) counted.now.state ending)) }
    ensures ranges { IfOk result (λ summary. (text : List ℕ) (speedup starts : ℕ)
        → is_label text ≡ true → speedup ≤ MAX_SPEEDUP → starts ≤ 10 ^ 17
        → IsSummary (length points.now.lines) (relabelled text speedup starts summary)) }
{
    let visits = counted.visits();
    let output = counted.output();
    let outcome = ended(counted.outcome());
    let digest = digest_of_bytes(output);
    let points = points.count();
    summary_of_run(alloc, b"", 0, outcome, output, digest, points, visits)
}

/// The number of instructions of each line that were begun in a run that has ended.
fn starts_of(alloc: Global, counted: &Counted, index: &LineIndex) -> Result<Vec<u64>, AllocError>
    requires index { counted.now.index ≡ index.now }
    requires ended { IsSome counted.now.state.ending }
    ensures many { IfOk result (λ starts. length starts.items ≡ length index.now.lines) }
    ensures each { IfOk result (λ starts. (line : ℕ) → line < length index.now.lines
        → SaysOf counted.now line (get_or starts.items line 0)) }
{
    let mut starts = Vec::new(alloc);
    for line in 0..index.count() {
        starts.push(counted.starts(LineId(line)))?;
    }
    Ok(starts)
}

/// The record of a run that has ended.
fn plain_in(
    alloc: Global,
    counted: &Counted,
    index: &LineIndex,
    points: &Points,
) -> Result<Plain, AllocError>
    requires index { counted.now.index ≡ index.now }
    requires points { counted.now.points ≡ points.now }
    requires ended { IsSome counted.now.state.ending }
    ensures many { IfOk result (λ plain. length plain.starts.items ≡ length index.now.lines) }
    ensures each { IfOk result (λ plain. (line : ℕ) → line < length index.now.lines
        → SaysOf counted.now line (starts_at plain line)) }
    ensures summary { (ending : Ending) → counted.now.state.ending ≡ Some ending
        → IfOk result (λ plain. plain.summary ≡ summary_of [] 0 (length points.now.lines)
        (record_of (experiment_of counted.now) counted.now.state ending)) }
    ensures ranges { IfOk result (λ plain. (text : List ℕ) (speedup starts : ℕ)
        → is_label text ≡ true → speedup ≤ MAX_SPEEDUP → starts ≤ 10 ^ 17
        → IsSummary (length points.now.lines) (relabelled text speedup starts plain.summary)) }
{
    let starts = starts_of(alloc, counted, index)?;
    match summarise_counted(alloc, counted, points) {
        Ok(summary) => Ok(Plain { summary, starts }),
        Err(error) => {
            // By one call, since a drop in place is proved part by part.
            drop(starts);
            Err(error)
        }
    }
}

/// The record of the run of a program with no line selected.
fn plain_run(alloc: Global, subject: &Subject, budget: u64) -> Result<Plain, AllocError>
    requires some_budget { 1 ≤ budget }
    requires few { budget ≤ MAX_BUDGET }
    requires machine { IsMachine subject.now.timing budget }
    ensures { IfOk result (IsPlain subject.now budget) }
{
    let choice = Choice::usual(None, 0, budget);
    let mut counted = Counted::new(
        alloc,
        subject.image,
        subject.index,
        subject.points,
        subject.timing,
        subject.input,
        choice,
    )?;
    counted.run();
    let plain = plain_in(alloc, &counted, subject.index, subject.points);
    // By one call, since a drop in place is proved part by part.
    drop(counted);
    plain
}

/// The record of the run of a program with no line selected, if that saves time in a plan of this
/// many lines. Fails only if out of memory.
pub fn plain_if_worth(
    alloc: Global,
    subject: &Subject,
    lines: u32,
    budget: u64,
) -> Result<Option<Plain>, AllocError>
    requires some_budget { 1 ≤ budget }
    requires few { budget ≤ MAX_BUDGET }
    requires machine { IsMachine subject.now.timing budget }
    ensures made { IfOk result (λ plain. is_some plain
        ≡ is_worth subject.now lines budget) }
    ensures plain { IfOk result (λ plain.
        IfSome plain (IsPlain subject.now budget)) }
{
    if !is_worth(alloc, subject, lines, budget)? {
        return Ok(None);
    }
    match plain_run(alloc, subject, budget) {
        Ok(plain) => Ok(Some(plain)),
        Err(error) => Err(error),
    }
}
