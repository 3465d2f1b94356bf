//! The command `lines`: reads the program with `read_program`, and makes the text of its lines.
ghost use Rattle.std.specs.Prelude.{◌≡◌, ◌≤◌, length, IfSome, IfNone};
ghost use Rattle.coz_types.specs.declared.TheConstants.{MAX_PROGRAM};
ghost use Rattle.coz_files.specs.Faults.{Rose};
ghost use Rattle.coz_words.specs.declared.command.Command.TheVariants.{Lines};
ghost use Rattle.coz_commands.specs.Verdict.{command_verdict, lines_verdict};
ghost use Rattle.coz_commands.specs.Answer.{verdict_of, IsMemory, FailedToRead, Suits, Settles};

use crate::answer::Answer;
use command_texts::{Printed, Text, lines_text};
use coz_files::Files;
use coz_types::MAX_PROGRAM;
use coz_words::Request;
use file_read::read_file;
use program_load::read_program;
use std::alloc::Global;

/// The text of the lines of the program that the request names.
/// Err is the first fault of the file, the program or its line table, or out of memory.
pub fn judge_lines<'r, F: Files>(alloc: Global, request: &'r Request, files: &mut F) -> Answer<'r>
    ensures same { F.held files.new ≡ F.held files.old }
    ensures fault_of_request { Suits request.now result }
    ensures verdict { IfSome (F.held files.old) (λ held. (IsMemory result → ⊥) →
        Settles (command_verdict Lines request.now held)
        (F.faults files.old) (F.faults files.new) result) }
    ensures read_fault_has_cause { FailedToRead result
        → IfNone (F.held files.old) (Rose (F.faults files.old) (F.faults files.new)) }
    ensures no_fault { (FailedToRead result → ⊥) → F.faults files.new ≡ F.faults files.old }
{
    let file = read_file(alloc, files, request.target.text(), MAX_PROGRAM)?;
    lines_answer(alloc, &file)
}

/// The text of the lines of the program in a file, or its first fault.
fn lines_answer<'r>(alloc: Global, file: &[u8]) -> Answer<'r>
    requires short { length file.now ≤ MAX_PROGRAM }
    ensures no_read { FailedToRead result → ⊥ }
    ensures verdict { (IsMemory result → ⊥) → verdict_of result ≡ lines_verdict file.now }
{
    let program = read_program(alloc, file)?;
    let text = lines_text(alloc, program.table.skipped, &program.index)?;
    Ok(Printed {
        status: 0,
        text: Text::Bytes(text),
    })
}
