//! A run that counts, and the lines that cost most in it.
ghost use Rattle.std.specs.Prelude.{◌≡◌, ◌≤◌, ◌+◌, ℕ, Bool, map, sum, take, length, All, IfOk, IsSome, Some};
ghost use Rattle.std.specs.List.{filter, range_with_len};
ghost use Rattle.coz_types.specs.declared.TheConstants.{MAX_BUDGET};
ghost use Rattle.machines.specs.KeptVisits.{net_of};
ghost use Rattle.machines.specs.Records.{net_visit};
ghost use Rattle.machines.specs.Standing.{delayed_record};
ghost use Rattle.hot_lines.specs.declared.lines.HotLine.{HotLine};
ghost use Rattle.hot_lines.specs.Lines.{has_started, rank};
ghost use Rattle.hot_lines.specs.HotRun.{IsLeftBy, all_seen, cost_on, hot_text, hot_written, line_seen, none_seen, plain_run, all_of, none_of};
ghost use Rattle.run_engine.specs.Run.{IsMachine};
ghost use Rattle.run_subject.specs.Subjects.{experiment_on};
ghost use Rattle.timed_guest.specs.Retire.{line_counted};

use crate::left::HotRun;
use crate::lines::{HotLine, push_started, ranked};
use counted_run::Counted;
use coz_types::{Ending, Items, LineId};
use line_index::LineIndex;
use run_engine::Choice;
use run_subject::Subject;
use std::alloc::{AllocError, Global};

/// The lines that start in a run that has ended, in their order, of this many lines.
fn started_lines(alloc: Global, counted: &Counted, count: u32) -> Result<Vec<HotLine>, AllocError>
    requires ended { IsSome counted.now.state.ending }
    requires count { count ≡ length counted.now.index.lines }
    ensures lines { IfOk result (λ lines. lines.items
        ≡ filter has_started (map (line_seen counted.now) (range_with_len 0 count))) }
    ensures within { IfOk result (λ lines.
        All (λ (line : HotLine). line.cost ≤ all_seen counted.now) lines.items) }
{
    let mut lines = Vec::new(alloc);
    for line in 0..count {
        let starts = counted.starts(LineId(line));
        let cost = counted.cost(LineId(line));
        push_started(&mut lines, HotLine { line, starts, cost })?;
    }
    Ok(lines)
}

/// The first of some lines, at most `top`.
fn first_lines(mut lines: Vec<HotLine>, top: u64) -> Vec<HotLine>
    ensures first { result.items ≡ take top lines.items }
    ensures within { (most : ℕ) → All (λ (line : HotLine). line.cost ≤ most) lines.items
        → All (λ (line : HotLine). line.cost ≤ most) result.items }
{
    if top < lines.len() as u64 {
        lines.truncate(top as usize);
    }
    lines
}

/// The lines that cost most in a run that has ended, at most `top`.
fn top_lines(
    alloc: Global,
    counted: &Counted,
    count: u32,
    top: u64,
) -> Result<Vec<HotLine>, AllocError>
    requires ended { IsSome counted.now.state.ending }
    requires count { count ≡ length counted.now.index.lines }
    ensures lines { IfOk result (λ lines. lines.items
        ≡ take top (rank (filter has_started
        (map (line_seen counted.now) (range_with_len 0 count))))) }
    ensures within { IfOk result (λ lines.
        All (λ (line : HotLine). line.cost ≤ all_seen counted.now) lines.items) }
{
    let lines = started_lines(alloc, counted, count)?;
    let lines = ranked(lines)?;
    Ok(first_lines(lines, top))
}

/// The record of a run that has ended.
fn hot_of(
    alloc: Global,
    counted: &Counted,
    ending: Ending,
    count: u32,
    top: u64,
) -> Result<HotRun, AllocError>
    requires ended { counted.now.state.ending ≡ Some ending }
    requires count { count ≡ length counted.now.index.lines }
    ensures { IfOk result (IsLeftBy counted.now ending count top) }
{
    let visits = Vec::from_slice(alloc, counted.visits())?;
    match top_lines(alloc, counted, count, top) {
        Ok(lines) => Ok(HotRun {
            ending,
            visits: Items::new(visits),
            lines: Items::new(lines),
            none: counted.cost_of_none(),
            all: counted.cost_of_all(),
        }),
        Err(error) => {
            // By one call, since a drop in place is proved part by part.
            drop(visits);
            Err(error)
        }
    }
}

/// Runs a program on its machine with no line selected, and returns what that leaves, with the
/// lines that cost most, at most `top`. A line costs what its instructions take, and on a machine
/// that charges code without a line also what the line is charged. Fails only if out of memory.
pub fn hot_run(
    alloc: Global,
    subject: &Subject,
    budget: u64,
    top: u64,
) -> Result<HotRun, AllocError>
    requires some_budget { 1 ≤ budget }
    requires few { budget ≤ MAX_BUDGET }
    requires machine { IsMachine subject.now.timing budget }
    ensures ending { IfOk result (λ run. run.ending
        ≡ (delayed_record (plain_run (experiment_on subject.now) budget)).ending) }
    ensures text { IfOk result (λ run. (names : Bool)
        → hot_written names subject.now.index.now.lines run
        ≡ hot_text names top budget (experiment_on subject.now) line_counted
        subject.now.index.now.lines) }
    ensures whole { let runs = experiment_on subject.now in
        let count = length subject.now.index.now.lines in
        IfOk result (λ run.
        (run.none ≡ none_of runs line_counted budget count)
        × (run.all ≡ all_of runs budget)
        × (sum (map (cost_on runs line_counted budget) (range_with_len 0 count))
        + run.none ≡ run.all)) }
{
    let choice = Choice::usual(None, 0, budget);
    let mut counted = Counted::new(
        alloc,
        subject.image,
        subject.index,
        subject.points,
        subject.timing,
        subject.input,
        choice,
    )?;
    let ending = counted.run();
    let run = hot_of(alloc, &counted, ending, subject.index.count(), top);
    // By one call, since a drop in place is proved part by part.
    drop(counted);
    run
}
