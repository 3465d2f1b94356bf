//! What the program prints, or why it prints nothing.
ghost use Rattle.std.specs.Prelude.{◌≡◌};
ghost use Rattle.coz_files.specs.Verdict.{bytes_of};
ghost use Rattle.coz_serve.specs.Serves.{Judges};
ghost use Rattle.coz_serve.specs.Written.{refused_by, shown_by};
ghost use Rattle.functions_cli.specs.Answer.{fault_line, fault_status, shared_fault};
ghost use Rattle.functions_cli.specs.Program.{functions_program, written_status, written_text};

use crate::fault::Fault;
use crate::judge::judge;
use crate::written::Written;
use coz_files::Files;
use std::alloc::Global;

/// The file of the program that the words name, in which each function is one line.
/// Err is the first fault of the words, of the file, of the program and its lines, or out of
/// memory.
pub fn answer_of<'w, F: Files>(
    alloc: Global,
    words: &'w [String],
    files: &mut F,
) -> Result<Written, Fault<'w>>
    ensures judges { Judges (functions_program (bytes_of words.now))
        (shown_by written_status written_text) (refused_by fault_status fault_line) shared_fault
        (F.held files.old) (F.faults files.old) (F.faults files.new) result }
    ensures same { F.held files.new ≡ F.held files.old }
{
    match judge(alloc, words, files) {
        Ok(file) => Ok(Written { file }),
        Err(fault) => Err(fault),
    }
}
