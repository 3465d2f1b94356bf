//! The command `latency`: how long requests are under way, at each speedup of a line.
//!
//! The points are the lines of both lists (`experiment_plan::joined`), and `places_among` finds those
//! of each list among them. One lead runs to the line's first start. Each speedup is forked from it
//! onto one machine, which runs to its end. `latency_points::measure` passes each net visit to a
//! `Flow`, which is closed at the run's net time.
ghost use Rattle.timing_model.specs.Timing.{usual};
ghost use Rattle.std.specs.Prelude.{◌≡◌, ◌&&◌, ◌≤◌, ◌<◌, ℕ, List, length, All, Some, IsSome, IfOk, IfSome, IfNone, if◌then◌else◌};
ghost use Rattle.std.specs.List.{list_all};
ghost use Rattle.coz_types.specs.declared.LineId.{LineId};
ghost use Rattle.coz_types.specs.declared.TheConstants.{MAX_BUDGET, MAX_PROGRAM, MAX_SPEEDUP};
ghost use Rattle.coz_files.specs.Faults.{Rose};
ghost use Rattle.coz_files.specs.Gathered.{Gathers};
ghost use Rattle.progress_points.specs.Points.{IsPoints};
ghost use Rattle.experiment_plan.specs.Selected.{ids};
ghost use Rattle.latency_points.specs.Moments.{numbers_of};
ghost use Rattle.run_engine.specs.Run.{IsChoice};
ghost use Rattle.virtual_run.specs.Lead.{arguments};
ghost use Rattle.coz_words.specs.Request.{IsFit};
ghost use Rattle.command_texts.specs.LatencyText.{latency_text};
ghost use Rattle.run_inputs.specs.Experiment.{Runs, runs_on};
ghost use Rattle.coz_commands.specs.Latencies.{latency_printed, latency_verdict, marked_verdict, net_at_each};
ghost use Rattle.coz_commands.specs.Measured.{arguments_of, run_at};
ghost use Rattle.coz_commands.specs.Verdict.{Verdict, file_verdict, files_verdict, has_exited};
ghost use Rattle.coz_commands.specs.Answer.{verdict_of, verdict_after, IsMemory, FailedToRead, Suits, Settles};

use crate::answer::Answer;
use crate::measuring::latency_at;
use command_texts::{Printed, Text, has_exited, put_latency};
use coz_files::{Files, PutBuffer, Sink};
use coz_types::{LineId, PointId};
use coz_words::Request;
use experiment_plan::{joined, places_among, rising_speedups};
use line_index::LineIndex;
use profile_book::TextWriter;
use program_load::{Fault, Program, bytes_of, line_named, listed_lines, points_of, read_program};
use progress_points::Points;
use run_inputs::read_inputs;
use run_subject::Subject;
use std::alloc::Global;
use timing_model::Timing;
use virtual_run::{Choice, Lead, Machine};

/// The points of two lists of lines, and which of them each list names.
#[derive(Drop)]
struct Marked {
    points: Points,
    arrive: Vec<PointId>,
    depart: Vec<PointId>,
}

/// The points of the lines of both lists, if there are not too many.
fn marked_points<'r>(
    alloc: Global,
    index: &LineIndex,
    arrive: &[LineId],
    depart: &[LineId],
) -> Result<Marked, Fault<'r>>
    requires arrive { All (λ (line : LineId). line.0 < length index.now.lines) arrive.now }
    requires depart { All (λ (line : LineId). line.0 < length index.now.lines) depart.now }
    ensures no_read { FailedToRead result → ⊥ }
    ensures verdict { (IsMemory result → ⊥)
        → (next : List ℕ → List ℕ → List ℕ → Verdict) →
        verdict_after result (λ marked. next marked.points.lines
        (numbers_of marked.arrive.items) (numbers_of marked.depart.items))
        ≡ marked_verdict (ids arrive.now) (ids depart.now) next }
    ensures points { IfOk result (λ marked. IsPoints index.now marked.points.lines marked.points) }
{
    let lines = joined(alloc, arrive, depart)?;
    let points = points_of(alloc, index, &lines)?;
    let arrive = places_among(alloc, &lines, arrive)?;
    let depart = places_among(alloc, &lines, depart)?;
    Ok(Marked {
        points,
        arrive,
        depart,
    })
}

/// The selected line, the points and the speedups, in percent, of a request for latencies.
#[derive(Drop)]
struct AskedLatency {
    selected: LineId,
    marked: Marked,
    speedups: Vec<u8>,
}

/// The line, points and speedups of a request for latencies, if the program has the lines
/// that are named. They are judged in the order `--line`, `--arrive`, `--depart`,
/// and then the number of points is.
fn asked_latency<'r>(
    alloc: Global,
    index: &LineIndex,
    request: &'r Request,
) -> Result<AskedLatency, Fault<'r>>
    requires fit { IsFit request.now }
    requires line { IsSome request.now.line }
    ensures no_read { FailedToRead result → ⊥ }
    ensures verdict { (IsMemory result → ⊥) → (runs : Runs) →
        verdict_after result (λ asked. latency_printed
        (numbers_of asked.marked.arrive.items) (numbers_of asked.marked.depart.items)
        (net_at_each runs (Some asked.selected.0) request.now.budget asked.marked.points.lines)
        asked.speedups.items)
        ≡ latency_verdict request.now index.now.lines runs }
    ensures points { IfOk result (λ asked.
        IsPoints index.now asked.marked.points.lines asked.marked.points) }
    ensures small { IfOk result (λ asked.
        All (λ speedup. speedup ≤ MAX_SPEEDUP) asked.speedups.items) }
{
    let line = line_named(index, bytes_of(&request.line))?;
    let Some(selected) = line else { unreachable!() };
    let arrive = listed_lines(alloc, index, bytes_of(&request.arrive))?;
    let depart = listed_lines(alloc, index, bytes_of(&request.depart))?;
    let marked = marked_points(alloc, index, &arrive, &depart)?;
    let speedups = rising_speedups(alloc, request.speedups.as_slice())?;
    Ok(AskedLatency {
        selected,
        marked,
        speedups,
    })
}

fn both(first: bool, second: bool) -> bool
    ensures { result ≡ (first && second) }
{
    first && second
}

/// Puts the line of the run at each speedup, forked from a lead onto a machine, and returns
/// whether each run exited.
fn put_latencies<'a, O: Sink>(
    to: &mut PutBuffer,
    out: &mut O,
    lead: &Lead<'a>,
    machine: &mut Machine<'a>,
    speedups: &[u8],
    arrive: &[PointId],
    depart: &[PointId],
) -> bool
    requires small { All (λ speedup. speedup ≤ MAX_SPEEDUP) speedups.now }
    requires arguments { arguments machine.old ≡ arguments lead.now }
    ensures text { Gathers O.holds O.faults out.old out.new to.old to.new
        (latency_text (numbers_of arrive.now) (numbers_of depart.now)
        (run_at lead.now) speedups.now) }
    ensures exited { result
        ≡ list_all (λ speedup. has_exited (run_at lead.now speedup).ending) speedups.now }
{
    let mut all = true;
    for speedup in speedups {
        let measured = latency_at(lead, machine, *speedup, arrive, depart);
        put_latency(
            to,
            out,
            *speedup,
            measured.ending,
            measured.net,
            measured.latency,
        );
        all = both(all, has_exited(measured.ending));
    }
    all
}

/// The status of runs: 0 if each exited.
fn status_of(all_exited: bool) -> u8
    ensures { result ≡ (if all_exited then 0 else 1) }
{
    if all_exited { 0 } else { 1 }
}

/// The text of the runs of a lead's line, on a machine that was made with the same.
fn leads_answer<'r, 'a>(
    alloc: Global,
    lead: &mut Lead<'a>,
    machine: &mut Machine<'a>,
    asked: &AskedLatency,
) -> Answer<'r>
    requires small { All (λ speedup. speedup ≤ MAX_SPEEDUP) asked.now.speedups.items }
    requires arguments { arguments machine.old ≡ arguments lead.old }
    ensures no_read { FailedToRead result → ⊥ }
    ensures verdict { (IsMemory result → ⊥) → verdict_of result ≡ latency_printed
        (numbers_of asked.now.marked.arrive.items) (numbers_of asked.now.marked.depart.items)
        (run_at lead.old) asked.now.speedups.items }
{
    lead.run();
    let mut text = TextWriter::new(alloc);
    let all = put_latencies(
        &mut text.to,
        &mut text.out,
        lead,
        machine,
        &asked.speedups,
        &asked.marked.arrive,
        &asked.marked.depart,
    );
    let bytes = text.finish()?;
    Ok(Printed {
        status: status_of(all),
        text: Text::Bytes(bytes),
    })
}

/// The text of the runs of a lead's line, on a machine that is made for them.
fn machine_answer<'r, 'a>(
    alloc: Global,
    subject: &Subject<'a>,
    choice: Choice,
    lead: &mut Lead<'a>,
    asked: &AskedLatency,
) -> Answer<'r>
    requires choice { IsChoice choice }
    requires lead { arguments lead.old
        ≡ arguments_of subject.now.image.now subject.now.index.now subject.now.points.now usual
        subject.now.input.now choice }
    requires small { All (λ speedup. speedup ≤ MAX_SPEEDUP) asked.now.speedups.items }
    ensures no_read { FailedToRead result → ⊥ }
    ensures verdict { (IsMemory result → ⊥) → verdict_of result ≡ latency_printed
        (numbers_of asked.now.marked.arrive.items) (numbers_of asked.now.marked.depart.items)
        (run_at lead.old) asked.now.speedups.items }
{
    let mut machine = Machine::new(
        alloc,
        subject.image,
        subject.index,
        subject.points,
        subject.input,
        choice,
    )?;
    let answer = leads_answer(alloc, lead, &mut machine, asked);
    // By one call, since a drop in place is proved part by part.
    drop(machine);
    answer
}

/// The text of the runs of a program at each speedup. Err: out of memory.
fn runs_answer<'r>(
    alloc: Global,
    program: &Program,
    input: &[u8],
    budget: u64,
    asked: &AskedLatency,
) -> Answer<'r>
    requires some_budget { 1 ≤ budget }
    requires few { budget ≤ MAX_BUDGET }
    requires points { IsPoints program.now.index asked.now.marked.points.lines asked.now.marked.points }
    requires small { All (λ speedup. speedup ≤ MAX_SPEEDUP) asked.now.speedups.items }
    ensures no_read { FailedToRead result → ⊥ }
    ensures verdict { (IsMemory result → ⊥) → verdict_of result ≡ latency_printed
        (numbers_of asked.now.marked.arrive.items) (numbers_of asked.now.marked.depart.items)
        (net_at_each (runs_on program.now input.now) (Some asked.now.selected.0)
        budget asked.now.marked.points.lines)
        asked.now.speedups.items }
{
    let choice = Choice::usual(Some(asked.selected), 0, budget);
    let subject = Subject {
        image: &program.image,
        index: &program.index,
        points: &asked.marked.points,
        timing: Timing::usual(),
        input,
    };
    let mut lead = Lead::new(
        alloc,
        subject.image,
        subject.index,
        subject.points,
        subject.input,
        choice,
    )?;
    let answer = machine_answer(alloc, &subject, choice, &mut lead, asked);
    // By one call, since a drop in place is proved part by part.
    drop(lead);
    answer
}

/// The text of the latencies of a program with these lines, if it has those
/// that are named: of one lead and one machine, whatever the number of speedups.
#[tactic(auto, using(crate::proofs::Budgets::few_budget))]
fn latency_answer<'r>(
    alloc: Global,
    program: &Program,
    input: &[u8],
    request: &'r Request,
) -> Answer<'r>
    requires fit { IsFit request.now }
    requires line { IsSome request.now.line }
    requires some_budget { 1 ≤ request.now.budget }
    ensures no_read { FailedToRead result → ⊥ }
    ensures verdict { (IsMemory result → ⊥) → verdict_of result ≡
        latency_verdict request.now program.now.index.lines (runs_on program.now input.now) }
{
    let asked = asked_latency(alloc, &program.index, request)?;
    runs_answer(alloc, program, input, request.budget, &asked)
}

/// The text of the latencies of the program that a request names.
/// Err is the first fault of the files, the program and its lines, or out of memory.
pub fn judge_latency<'r, F: Files>(alloc: Global, request: &'r Request, files: &mut F) -> Answer<'r>
    requires fit { IsFit request.now }
    requires line { IsSome request.now.line }
    requires some_budget { 1 ≤ request.now.budget }
    ensures same { F.held files.new ≡ F.held files.old }
    ensures fault_of_request { Suits request.now result }
    ensures verdict { IfSome (F.held files.old) (λ held. (IsMemory result → ⊥) →
        Settles (files_verdict request.now held (latency_verdict request.now))
        (F.faults files.old) (F.faults files.new) result) }
    ensures read_fault_has_cause { FailedToRead result
        → IfNone (F.held files.old) (Rose (F.faults files.old) (F.faults files.new)) }
    ensures no_fault { (FailedToRead result → ⊥) → F.faults files.new ≡ F.faults files.old }
{
    let inputs = read_inputs(alloc, request, files)?;
    latency_of_file(alloc, &inputs.program, &inputs.input, request)
}

/// The text of the latencies of the program in a file, or its first fault.
fn latency_of_file<'r>(alloc: Global, file: &[u8], input: &[u8], request: &'r Request) -> Answer<'r>
    requires short { length file.now ≤ MAX_PROGRAM }
    requires fit { IsFit request.now }
    requires line { IsSome request.now.line }
    requires some_budget { 1 ≤ request.now.budget }
    ensures no_read { FailedToRead result → ⊥ }
    ensures verdict { (IsMemory result → ⊥) → verdict_of result
        ≡ file_verdict (latency_verdict request.now) file.now input.now }
{
    let program = read_program(alloc, file)?;
    latency_answer(alloc, &program, input, request)
}
