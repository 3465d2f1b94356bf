//! Judges the arguments and the file that they name.
ghost use Rattle.std.specs.Prelude.{◌≡◌, ◌≤◌, ◌<◌, true, [], None, length, All, IfErr, IfSome, IfNone};
ghost use Rattle.coz_types.specs.declared.LineId.{LineId};
ghost use Rattle.coz_types.specs.declared.TheConstants.{MAX_PROGRAM};
ghost use Rattle.coz_files.specs.Faults.{Rose};
ghost use Rattle.coz_files.specs.Verdict.{bytes_of};
ghost use Rattle.elf_load.specs.Faults.{fault};
ghost use Rattle.elf_load.specs.Loaded.{load_answer};
ghost use Rattle.experiment_plan.specs.Lists.{is_list};
ghost use Rattle.line_remap.specs.Marks.{positions_of, spelled_lines};
ghost use Rattle.line_remap.specs.Sound.{IsIndexOf};
ghost use Rattle.program_load.specs.LineTable.{table_in};
ghost use Rattle.program_load.specs.Selection.{lines_named};
ghost use Rattle.functions_cli.specs.Words.{request_in, request_of};
ghost use Rattle.functions_cli.specs.Regions.{regions_named};
ghost use Rattle.functions_cli.specs.Verdict.{IsKeptVerdict, IsLoadedVerdict, IsRegionsVerdict};
ghost use Rattle.functions_cli.specs.Answer.{IsMemory, IsOfProgram, FailedToRead, IsSettled, Suits, verdict_of};

use crate::fault::{Fault, fault_of};
use crate::regions::regions_named;
use crate::words::{Asked, asked_of};
use coz_files::Files;
use coz_types::{LineId, MAX_PROGRAM};
use file_read::{FileFault, read_file};
use function_lines::by_function;
use line_regions::Lines;
use program_load::{Fault as StepFault, Program, listed_lines, read_program};
use std::alloc::{AllocError, Global};

/// The file of a program in which each function is one line, these lines keep their addresses, and
/// each region that is asked for is one line.
fn file_by_marks<'w>(
    alloc: Global,
    program: &Program,
    asked: &Asked<'w>,
    kept: &[LineId],
) -> Result<Vec<u8>, Fault<'w>>
    requires right { fault program.now.image.file ≡ None }
    requires indexed { IsIndexOf program.now.image.areas program.now.index }
    requires kept { All (λ (line : LineId). line.0 < length program.now.index.lines) kept.now }
    ensures of { IfErr result (IsOfProgram (request_of asked.now)) }
    ensures judged { (IsMemory result → ⊥) →
        IsRegionsVerdict (request_of asked.now) program.now.image program.now.index
        (positions_of kept.now) (regions_named (spelled_lines program.now.index)
        (request_of asked.now).regions) (verdict_of result) }
{
    let lines = match Lines::new(alloc, &program.index) {
        Ok(lines) => lines,
        Err(_) => return Err(Fault::Step(StepFault::File(FileFault::Memory))),
    };
    let regions = match regions_named(alloc, &lines, asked.regions) {
        Ok(regions) => regions,
        Err(fault) => {
            // By one call, since a drop in place is proved part by part.
            drop(lines);
            return Err(Fault::Step(fault));
        }
    };
    let written = by_function(
        alloc,
        &program.image,
        &program.index,
        kept,
        &lines,
        &regions,
    );
    drop(lines);
    match written {
        Ok(file) => Ok(file),
        Err(error) => Err(fault_of(error, asked.target)),
    }
}

/// The file of a program in which each function is one line, and the lines that are asked for
/// keep their addresses.
fn file_by_function<'w>(
    alloc: Global,
    program: &Program,
    asked: &Asked<'w>,
) -> Result<Vec<u8>, Fault<'w>>
    requires right { fault program.now.image.file ≡ None }
    requires indexed { IsIndexOf program.now.image.areas program.now.index }
    requires list { IfSome asked.now.keep (λ text. is_list text.now ≡ true) }
    ensures of { IfErr result (IsOfProgram (request_of asked.now)) }
    ensures judged { (IsMemory result → ⊥) →
        IsKeptVerdict (request_of asked.now) program.now.image program.now.index
        (lines_named program.now.index.lines [] (request_of asked.now).keep) (verdict_of result) }
{
    match listed_lines(alloc, &program.index, asked.keep) {
        Ok(kept) => file_by_marks(alloc, program, asked, &kept),
        Err(fault) => Err(Fault::Step(fault)),
    }
}

/// The file by function of the program that a file is, if it is one.
fn file_of<'w>(alloc: Global, file: &[u8], asked: &Asked<'w>) -> Result<Vec<u8>, Fault<'w>>
    requires short { length file.now ≤ MAX_PROGRAM }
    requires list { IfSome asked.now.keep (λ text. is_list text.now ≡ true) }
    ensures of { IfErr result (IsOfProgram (request_of asked.now)) }
    ensures judged { (IsMemory result → ⊥) →
        IsLoadedVerdict (request_of asked.now) (load_answer file.now) (table_in file.now)
        (verdict_of result) }
{
    match read_program(alloc, file) {
        Ok(program) => {
            let written = file_by_function(alloc, &program, asked);
            // By one call, since a drop in place is proved part by part.
            drop(program);
            written
        }
        Err(fault) => Err(Fault::Step(fault)),
    }
}

/// Returns the file of the program that the words name, in which each function is one line.
/// Err is the first fault of the words, of the file, of the program and its lines, or out of
/// memory.
pub fn judge<'w, F: Files>(
    alloc: Global,
    words: &'w [String],
    files: &mut F,
) -> Result<Vec<u8>, Fault<'w>>
    ensures same { F.held files.new ≡ F.held files.old }
    ensures fault_of_request { Suits (request_in (bytes_of words.now)) result }
    ensures verdict { IfSome (F.held files.old) (λ held. (IsMemory result → ⊥) →
        IsSettled (bytes_of words.now) held (F.faults files.old) (F.faults files.new) result) }
    ensures read_fault_has_cause { FailedToRead result
        → IfNone (F.held files.old) (Rose (F.faults files.old) (F.faults files.new)) }
    ensures no_fault { (FailedToRead result → ⊥) → F.faults files.new ≡ F.faults files.old }
{
    let said = match asked_of(alloc, words) {
        Ok(said) => said,
        Err(AllocError) => return Err(Fault::Step(StepFault::File(FileFault::Memory))),
    };
    let Some(asked) = said else {
        return Err(Fault::Step(StepFault::File(FileFault::Usage)));
    };
    match read_file(alloc, files, asked.target, MAX_PROGRAM) {
        Ok(file) => file_of(alloc, &file, &asked),
        Err(fault) => Err(Fault::Step(StepFault::File(fault))),
    }
}
