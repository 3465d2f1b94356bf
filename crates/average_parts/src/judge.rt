//! Judges the arguments and the files that they name.
ghost use Rattle.std.specs.Prelude.{◌≡◌, ℕ, List, IfSome, IfNone};
ghost use Rattle.coz_files.specs.Faults.{Rose};
ghost use Rattle.average_parts.specs.Words.{paths_in};
ghost use Rattle.average_parts.specs.Verdict.{bytes_of};
ghost use Rattle.average_parts.specs.Answer.{IsMemory, FailedToRead, IsSettled, Suits};

use crate::fault::Fault;
use crate::parts::{read_parts, table};
use crate::table::Table;
use crate::words::paths_in;
use coz_files::Files;
use file_read::FileFault;
use std::alloc::Global;

/// Returns the averages of the profiles that the files of the named paths hold.
/// Err is the first fault of the words, of a file, or of the profiles, or out of memory.
pub fn judge<'w, F: Files>(
    alloc: Global,
    words: &'w [String],
    files: &mut F,
) -> Result<Table, Fault<'w>>
    ensures same { F.held files.new ≡ F.held files.old }
    ensures fault_of_request { Suits (paths_in (bytes_of words.now)) (F.held files.old) result }
    ensures verdict { IfSome (F.held files.old) (λ held. (IsMemory result → ⊥) →
        IsSettled (bytes_of words.now) held (F.faults files.old) (F.faults files.new) result) }
    ensures read_fault_has_cause { FailedToRead result
        → IfNone (F.held files.old) (Rose (F.faults files.old) (F.faults files.new)) }
    ensures no_fault { (FailedToRead result → ⊥) → F.faults files.new ≡ F.faults files.old }
{
    let Some(paths) = paths_in(words) else {
        return Err(Fault::File(FileFault::Usage));
    };
    match read_parts(alloc, files, paths) {
        Ok(parts) => table(alloc, parts, paths),
        Err(fault) => Err(fault),
    }
}
