//! The command `path`: the critical path of a run.
//!
//! `critical_path::walk` runs `run_engine::Engine` event by event. For each hart it keeps a `Cause`:
//! the event that began its instruction or its sleep, its own event before, and its ticks of work and
//! of sleep. `path_chains::longest` goes back from the last event, and
//! `path_texts::shares_of_path` adds up the ticks of each line. The text is written without
//! allocating.
ghost use Rattle.std.specs.Prelude.{◌≡◌, ◌≤◌, length, IfOk, IfSome, IfNone};
ghost use Rattle.coz_types.specs.declared.TheConstants.{MAX_PROGRAM};
ghost use Rattle.coz_files.specs.Faults.{Rose};
ghost use Rattle.line_index.specs.Index.{position_at};
ghost use Rattle.path_chains.specs.declared.TheConstants.{MAX_EVENTS};
ghost use Rattle.path_texts.specs.PathText.{written_path};
ghost use Rattle.run_inputs.specs.Experiment.{runs_on};
ghost use Rattle.coz_commands.specs.CriticalPath.{path_on, path_printed, plain_run};
ghost use Rattle.coz_commands.specs.Verdict.{ended_verdict, path_verdict};
ghost use Rattle.coz_commands.specs.Answer.{verdict_of, printed_verdict, IsMemory, FailedToRead, Suits, Settles};

use crate::answer::Answer;
use command_texts::{Printed, Text, ending_status};
use coz_files::Files;
use coz_words::Request;
use critical_path::walk;
use file_read::FileFault;
use line_index::LineIndex;
use path_texts::{CriticalPath, path_of};
use program_load::{Fault, Program, read_program};
use run_engine::Choice;
use run_inputs::read_inputs;
use std::alloc::{AllocError, Global};

/// The text of the critical path of the program and the input that the request names.
/// Err is the first fault of the files, the program or its line table, or out of memory.
pub fn judge_path<'r, F: Files>(alloc: Global, request: &'r Request, files: &mut F) -> Answer<'r>
    requires some_budget { 1 ≤ request.now.budget }
    requires few { request.now.budget ≤ MAX_EVENTS }
    ensures same { F.held files.new ≡ F.held files.old }
    ensures fault_of_request { Suits request.now result }
    ensures verdict { IfSome (F.held files.old) (λ held. (IsMemory result → ⊥) →
        Settles (path_verdict request.now held)
        (F.faults files.old) (F.faults files.new) result) }
    ensures read_fault_has_cause { FailedToRead result
        → IfNone (F.held files.old) (Rose (F.faults files.old) (F.faults files.new)) }
    ensures no_fault { (FailedToRead result → ⊥) → F.faults files.new ≡ F.faults files.old }
{
    let inputs = read_inputs(alloc, request, files)?;
    path_of_file(alloc, &inputs.program, &inputs.input, request.budget)
}

/// The text of the critical path of the program in a file, or its first fault.
fn path_of_file<'r>(alloc: Global, file: &[u8], input: &[u8], budget: u64) -> Answer<'r>
    requires short { length file.now ≤ MAX_PROGRAM }
    requires some_budget { 1 ≤ budget }
    requires few { budget ≤ MAX_EVENTS }
    ensures no_read { FailedToRead result → ⊥ }
    ensures verdict { (IsMemory result → ⊥)
        → verdict_of result
        ≡ path_on budget file.now input.now }
{
    let program = read_program(alloc, file)?;
    match found_path(alloc, &program, input, budget) {
        Ok(path) => Ok(printed_path(path, program.index)),
        Err(_) => {
            // By one call, since a drop in place is proved part by part.
            drop(program);
            Err(Fault::File(FileFault::Memory))
        }
    }
}

/// The text of a critical path and its status.
fn printed_path(path: CriticalPath, index: LineIndex) -> Printed
    ensures { printed_verdict result
        ≡ ended_verdict path.trace.ending (written_path path index) }
{
    Printed {
        status: ending_status(path.trace.ending),
        text: Text::Path(path, index),
    }
}

/// The critical path of a program's run, with no line selected and no points.
/// Fails only if out of memory.
fn found_path(
    alloc: Global,
    program: &Program,
    input: &[u8],
    budget: u64,
) -> Result<CriticalPath, AllocError>
    requires some_budget { 1 ≤ budget }
    requires few { budget ≤ MAX_EVENTS }
    ensures { IfOk result (λ path.
        ended_verdict path.trace.ending (written_path path program.now.index)
        ≡ path_printed (plain_run (runs_on program.now input.now) budget)
        (position_at program.now.index) program.now.index.lines) }
{
    let limits = Choice::usual(None, 0, budget);
    let trace = walk(
        alloc,
        &program.image,
        input,
        limits.budget,
        limits.output_limit,
        limits.layout,
    )?;
    path_of(alloc, &program.index, trace)
}
