//! The commands `run` and `really`.
ghost use Rattle.std.specs.Prelude.{◌≡◌, ◌≤◌, ℕ, List, length, IfOk, IfSome, IfNone};
ghost use Rattle.coz_types.specs.declared.TheConstants.{MAX_PROGRAM};
ghost use Rattle.coz_types.specs.Image.{ImageParts};
ghost use Rattle.coz_files.specs.Faults.{Rose};
ghost use Rattle.line_index.specs.Index.{position_at};
ghost use Rattle.progress_points.specs.Points.{point_of};
ghost use Rattle.machines.specs.Guest.{Experiment};
ghost use Rattle.guest_calls.specs.Guest.{Guest};
ghost use Rattle.run_engine.specs.Run.{IsChoice, experiment};
ghost use Rattle.coz_words.specs.Request.{IsFit};
ghost use Rattle.run_inputs.specs.Experiment.{runs_in, runs_on};
ghost use Rattle.coz_commands.specs.Verdict.{Verdict, asked_verdict, file_verdict, files_verdict, really_printed, run_printed};
ghost use Rattle.coz_commands.specs.Kinds.{printed_of};
ghost use Rattle.coz_commands.specs.Answer.{verdict_of, verdict_after, IsMemory, FailedToRead, Suits, Settles};

use crate::answer::Answer;
use crate::runs::{Kind, run_answer};
use coz_files::Files;
use coz_words::Request;
use line_index::LineIndex;
use program_load::{Fault, Program, bytes_of, line_named, progress_points, read_program};
use progress_points::Points;
use run_inputs::read_inputs;
use run_subject::Subject;
use std::alloc::Global;
use timing_model::Timing;
use virtual_run::Choice;

/// The text of the delayed run of the program that a request names.
/// Err is the first fault of the files, the program and its lines, or out of memory.
pub fn judge_run<'r, F: Files>(alloc: Global, request: &'r Request, files: &mut F) -> Answer<'r>
    requires fit { IsFit request.now }
    requires some_budget { 1 ≤ request.now.budget }
    ensures same { F.held files.new ≡ F.held files.old }
    ensures fault_of_request { Suits request.now result }
    ensures verdict { IfSome (F.held files.old) (λ held. (IsMemory result → ⊥) →
        Settles (files_verdict request.now held (asked_verdict request.now run_printed))
        (F.faults files.old) (F.faults files.new) result) }
    ensures read_fault_has_cause { FailedToRead result
        → IfNone (F.held files.old) (Rose (F.faults files.old) (F.faults files.new)) }
    ensures no_fault { (FailedToRead result → ⊥) → F.faults files.new ≡ F.faults files.old }
{
    judge_kind(alloc, Kind::Delayed, request, files)
}

/// The text of the shortened run of the program that a request names.
/// Err is the first fault of the files, the program and its lines, or out of memory.
pub fn judge_really<'r, F: Files>(alloc: Global, request: &'r Request, files: &mut F) -> Answer<'r>
    requires fit { IsFit request.now }
    requires some_budget { 1 ≤ request.now.budget }
    ensures same { F.held files.new ≡ F.held files.old }
    ensures fault_of_request { Suits request.now result }
    ensures verdict { IfSome (F.held files.old) (λ held. (IsMemory result → ⊥) →
        Settles (files_verdict request.now held (asked_verdict request.now really_printed))
        (F.faults files.old) (F.faults files.new) result) }
    ensures read_fault_has_cause { FailedToRead result
        → IfNone (F.held files.old) (Rose (F.faults files.old) (F.faults files.new)) }
    ensures no_fault { (FailedToRead result → ⊥) → F.faults files.new ≡ F.faults files.old }
{
    judge_kind(alloc, Kind::Shortened, request, files)
}

/// The text of a machine's run of the program that a request names.
/// Err is the first fault of the files, the program and its lines, or out of memory.
fn judge_kind<'r, F: Files>(
    alloc: Global,
    kind: Kind,
    request: &'r Request,
    files: &mut F,
) -> Answer<'r>
    requires fit { IsFit request.now }
    requires some_budget { 1 ≤ request.now.budget }
    ensures same { F.held files.new ≡ F.held files.old }
    ensures fault_of_request { Suits request.now result }
    ensures verdict { IfSome (F.held files.old) (λ held. (IsMemory result → ⊥) →
        Settles (files_verdict request.now held (asked_verdict request.now (printed_of kind)))
        (F.faults files.old) (F.faults files.new) result) }
    ensures read_fault_has_cause { FailedToRead result
        → IfNone (F.held files.old) (Rose (F.faults files.old) (F.faults files.new)) }
    ensures no_fault { (FailedToRead result → ⊥) → F.faults files.new ≡ F.faults files.old }
{
    let inputs = read_inputs(alloc, request, files)?;
    run_of_file(alloc, kind, &inputs.program, &inputs.input, request)
}

/// The text of a machine's run of the program in a file, or its first fault.
fn run_of_file<'r>(
    alloc: Global,
    kind: Kind,
    file: &[u8],
    input: &[u8],
    request: &'r Request,
) -> Answer<'r>
    requires short { length file.now ≤ MAX_PROGRAM }
    requires fit { IsFit request.now }
    requires some_budget { 1 ≤ request.now.budget }
    ensures no_read { FailedToRead result → ⊥ }
    ensures verdict { (IsMemory result → ⊥) → verdict_of result
        ≡ file_verdict (asked_verdict request.now (printed_of kind)) file.now input.now }
{
    let program = read_program(alloc, file)?;
    run_of_program(alloc, kind, &program, input, request)
}

/// The points and the choice of a run.
#[derive(Drop)]
struct Asked {
    points: Points,
    choice: Choice,
}

/// The points and the options of a requested run, if the program has the lines that are named.
fn asked_of<'r>(alloc: Global, index: &LineIndex, request: &'r Request) -> Result<Asked, Fault<'r>>
    requires fit { IsFit request.now }
    requires some_budget { 1 ≤ request.now.budget }
    ensures no_read { FailedToRead result → ⊥ }
    ensures valid { IfOk result (λ asked. IsChoice asked.choice) }
    ensures verdict { (IsMemory result → ⊥)
        → (image : ImageParts) (input : List ℕ) (print : Experiment Guest → Verdict) →
        verdict_after result (λ asked.
        print (experiment image (position_at index.now) (point_of asked.points) input asked.choice))
        ≡ asked_verdict request.now print index.now.lines (runs_in image index.now input) }
{
    let selected = line_named(index, bytes_of(&request.line))?;
    let points = progress_points(alloc, index, bytes_of(&request.progress))?;
    let choice = Choice::usual(selected, request.speedup, request.budget);
    Ok(Asked { points, choice })
}

/// The text of a machine's run of a program with these lines, if it has those that are named.
fn run_of_program<'r>(
    alloc: Global,
    kind: Kind,
    program: &Program,
    input: &[u8],
    request: &'r Request,
) -> Answer<'r>
    requires fit { IsFit request.now }
    requires some_budget { 1 ≤ request.now.budget }
    ensures no_read { FailedToRead result → ⊥ }
    ensures verdict { (IsMemory result → ⊥) → verdict_of result ≡
        asked_verdict request.now (printed_of kind) program.now.index.lines
        (runs_on program.now input.now) }
{
    let asked = asked_of(alloc, &program.index, request)?;
    let subject = Subject {
        image: &program.image,
        index: &program.index,
        points: &asked.points,
        timing: Timing::usual(),
        input,
    };
    run_answer(alloc, kind, &subject, asked.choice)
}
