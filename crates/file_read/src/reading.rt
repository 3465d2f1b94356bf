//! Reads a file up to a limit.
ghost use Rattle.std.specs.Prelude.{◌≡◌, ◌≤◌, ℕ, List, length, IfOk, IfErr, IfSome, IfNone};
ghost use Rattle.coz_files.specs.Faults.{Rose};
ghost use Rattle.coz_files.specs.Held.{file_at};
ghost use Rattle.coz_files.specs.Verdict.{Verdict};
ghost use Rattle.file_read.specs.Reading.{read_verdict, IsMemory, IsOfPath, FailedToRead, SettlesThen};

use crate::fault::FileFault;
use coz_files::{FileAnswer, Files};
use std::alloc::Global;

/// Returns the bytes of a path's file, if there are at most `most`. Err is `FileFault::Read` if
/// the file can't be read, `FileFault::Long` if it is longer, or `FileFault::Memory`.
pub fn read_file<'a, F: Files>(
    alloc: Global,
    files: &mut F,
    path: &'a str,
    most: u64,
) -> Result<Vec<u8>, FileFault<'a>>
    ensures same { F.held files.new ≡ F.held files.old }
    ensures short { IfOk result (λ file. length file.items ≤ most) }
    ensures of_path { IfErr result (IsOfPath path.now) }
    ensures verdict { IfSome (F.held files.old) (λ held.
        (IsMemory result → ⊥) → (next : List ℕ → Verdict) →
        SettlesThen (λ file. next file.items)
        (read_verdict most path.now (file_at held path.now) next)
        (F.faults files.old) (F.faults files.new) result) }
    ensures read_fault_has_cause { FailedToRead result
        → IfNone (F.held files.old) (Rose (F.faults files.old) (F.faults files.new)) }
    ensures no_fault { (FailedToRead result → ⊥) → F.faults files.new ≡ F.faults files.old }
{
    let mut file = Vec::new(alloc);
    match files.read_whole(path, most, &mut file) {
        FileAnswer::Whole => Ok(file),
        FileAnswer::Longer => Err(FileFault::Long(path)),
        FileAnswer::Failed => Err(FileFault::Read(path)),
        FileAnswer::Memory => Err(FileFault::Memory),
    }
}
