//! What the program prints, or why it prints nothing.
ghost use Rattle.std.specs.Prelude.{◌≡◌, None, Some, IsErrAnd};
ghost use Rattle.coz_files.specs.Verdict.{bytes_of};
ghost use Rattle.coz_serve.specs.Serves.{Judges};
ghost use Rattle.coz_serve.specs.Written.{refused_by, shown_by};
ghost use Rattle.file_read.specs.declared.fault.FileFault.TheVariants.{Usage};
ghost use Rattle.average_parts.specs.Words.{paths_in};
ghost use Rattle.average_parts.specs.Answer.{fault_line, fault_status, shared_fault};
ghost use Rattle.average_parts.specs.Program.{average_program, table_status, table_text};

use crate::fault::Fault;
use crate::judge::judge;
use crate::table::Table;
use coz_files::Files;
use std::alloc::Global;

/// The averages of the profiles in the files of the paths that the words name.
/// Err is the first fault of the words, of a file or of the profiles, or out of memory.
pub fn answer_of<'w, F: Files>(
    alloc: Global,
    words: &'w [String],
    files: &mut F,
) -> Result<Table, Fault<'w>>
    // Words that name no path are answered by `Usage`, also if it is out of memory.
    ensures usage { paths_in (bytes_of words.now) ≡ None
        → IsErrAnd result (λ fault. shared_fault fault ≡ Some Usage) }

    // It is what the words come to.
    ensures judges { Judges (average_program (bytes_of words.now) (F.held files.old))
        (shown_by table_status table_text) (refused_by fault_status fault_line) shared_fault
        (F.held files.old) (F.faults files.old) (F.faults files.new) result }
    ensures same { F.held files.new ≡ F.held files.old }
{
    match judge(alloc, words, files) {
        Ok(table) => Ok(table),
        Err(fault) => Err(fault),
    }
}
