//! The answer of a request.
ghost use Rattle.std.specs.Prelude.{◌≡◌, ◌≤◌, length, IfSome, IfNone};
ghost use Rattle.coz_types.specs.declared.TheConstants.{MAX_BUDGET, MAX_PROGRAM};
ghost use Rattle.coz_files.specs.Faults.{Rose};
ghost use Rattle.coz_words.specs.Request.{IsFit};
ghost use Rattle.line_index.specs.Index.{position_at};
ghost use Rattle.hot_lines.specs.HotRun.{hot_written};
ghost use Rattle.run_inputs.specs.Experiment.{runs_on};
ghost use Rattle.hot_cli.specs.Verdict.{ended_verdict, hot_judging, hot_on, hot_verdict};
ghost use Rattle.hot_cli.specs.Answer.{verdict_after, verdict_in, verdict_of, IsMemory, FailedToRead, Suits, Settles};

use crate::asked::HotRequest;
use crate::hot::Hot;
use coz_files::Files;
use hot_lines::{HotRun, hot_run};
use program_load::{Fault, Program, bytes_of, progress_points, read_program};
use run_inputs::read_inputs;
use run_subject::Subject;
use std::alloc::Global;
use timing_model::Timing;

/// The run of a program that a request asks for, if the program has the lines that are named.
fn found_run<'r>(
    alloc: Global,
    program: &Program,
    input: &[u8],
    asked: &'r HotRequest,
) -> Result<HotRun, Fault<'r>>
    requires fit { IsFit asked.now.run }
    requires some_budget { 1 ≤ asked.now.run.budget }
    requires few { asked.now.run.budget ≤ MAX_BUDGET }
    ensures no_read { FailedToRead result → ⊥ }
    ensures verdict { (IsMemory result → ⊥) → verdict_after result (λ run.
        ended_verdict run.ending (hot_written asked.now.names program.now.index.lines run))
        ≡ hot_judging asked.now (position_at program.now.index) program.now.index.lines
        (runs_on program.now input.now) }
{
    let points = progress_points(alloc, &program.index, bytes_of(&asked.run.progress))?;
    let subject = Subject {
        image: &program.image,
        index: &program.index,
        points: &points,
        timing: Timing::usual(),
        input,
    };
    let found = hot_run(alloc, &subject, asked.run.budget, asked.top)?;
    Ok(found)
}

/// The text of the run of the program in a file, or its first fault.
fn hot_of_file<'r>(
    alloc: Global,
    file: &[u8],
    input: &[u8],
    asked: &'r HotRequest,
) -> Result<Hot, Fault<'r>>
    requires short { length file.now ≤ MAX_PROGRAM }
    requires fit { IsFit asked.now.run }
    requires some_budget { 1 ≤ asked.now.run.budget }
    requires few { asked.now.run.budget ≤ MAX_BUDGET }
    ensures no_read { FailedToRead result → ⊥ }
    ensures verdict { (IsMemory result → ⊥)
        → verdict_of result ≡ hot_on asked.now file.now input.now }
{
    let program = read_program(alloc, file)?;
    match found_run(alloc, &program, input, asked) {
        Ok(run) => Ok(Hot {
            run,
            index: program.index,
            names: asked.names,
        }),
        Err(fault) => {
            // By one call, since a drop in place is proved part by part.
            drop(program);
            Err(fault)
        }
    }
}

/// The text of the run that a request asks for, over the files that it names.
/// Err is the first fault of the files, the program and its lines, or that it is out of memory.
pub fn judge_hot<'r, F: Files>(
    alloc: Global,
    asked: &'r HotRequest,
    files: &mut F,
) -> Result<Hot, Fault<'r>>
    requires fit { IsFit asked.now.run }
    requires some_budget { 1 ≤ asked.now.run.budget }
    requires few { asked.now.run.budget ≤ MAX_BUDGET }
    ensures same { F.held files.new ≡ F.held files.old }
    ensures fault_of_request { Suits asked.now.run result }
    ensures verdict { IfSome (F.held files.old) (λ held. (IsMemory result → ⊥) →
        Settles (hot_verdict asked.now held) (F.faults files.old) (F.faults files.new) result) }
    ensures read_fault_has_cause { FailedToRead result
        → IfNone (F.held files.old) (Rose (F.faults files.old) (F.faults files.new)) }
    ensures no_fault { (FailedToRead result → ⊥) → F.faults files.new ≡ F.faults files.old }
{
    let inputs = read_inputs(alloc, &asked.run, files)?;
    hot_of_file(alloc, &inputs.program, &inputs.input, asked)
}
