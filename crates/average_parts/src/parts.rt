//! The profiles in the files of paths, and their averages.
ghost use Rattle.std.specs.Prelude.{◌≡◌, ◌≤◌, [], length, get_or, All, IfOk, IfErr, IfSome, IfNone};
ghost use Rattle.std.specs.Global.{Vec};
ghost use Rattle.coz_files.specs.Faults.{Rose};
ghost use Rattle.coz_files.specs.Held.{file_at};
ghost use Rattle.timing_reader.specs.Reading.{timed_text};
ghost use Rattle.average_values.specs.Values.{most_runs};
ghost use Rattle.average_parts.specs.declared.part.Part.{Part};
ghost use Rattle.average_parts.specs.Verdict.{bytes_of, timed_in, part_in, parts_in, parts_verdict, IsRightPart};
ghost use Rattle.average_parts.specs.Answer.{judged, verdict_of, IsMemory, FailedToRead, IsOfPath, IsOfPaths, Settles};

use crate::chosen::averaged_of;
use crate::fault::Fault;
use crate::likeness::unlike_part;
use crate::part::Part;
use crate::table::Table;
use average_curves::average;
use coz_files::Files;
use file_read::{FileFault, read_file};
use profile_reader::{BookError, MAX_PROFILE, read_profile};
use std::alloc::Global;
use timing_reader::timed_text;

/// Returns the profile, and its machine, of which the bytes are the text, if they are one's.
fn book<'w>(alloc: Global, bytes: &[u8], path: &'w str) -> Result<Part, Fault<'w>>
    ensures of_path { IfErr result (IsOfPath path.now) }
    ensures no_read { FailedToRead result → ⊥ }
    ensures right { IfOk result IsRightPart }
    ensures judged { (IsMemory result → ⊥) → judged (λ (p : Part). p) result
        ≡ timed_in path.now (timed_text bytes.now) }
{
    let (timing, text) = timed_text(bytes);
    match read_profile(alloc, text) {
        Ok(profile) => Ok(Part { timing, profile }),
        Err(BookError::Fault(fault)) => Err(Fault::Profile(fault, path)),
        Err(BookError::Memory) => Err(Fault::File(FileFault::Memory)),
    }
}

/// Returns the profile in the file of a path, and its machine. The file's bytes are let go.
fn read_part<'w, F: Files>(alloc: Global, files: &mut F, path: &'w str) -> Result<Part, Fault<'w>>
    ensures same { F.held files.new ≡ F.held files.old }
    ensures of_path { IfErr result (IsOfPath path.now) }
    ensures right { IfOk result IsRightPart }
    ensures verdict { IfSome (F.held files.old) (λ held. (IsMemory result → ⊥) →
        Settles (λ (p : Part). p) (part_in path.now (file_at held path.now))
        (F.faults files.old) (F.faults files.new) result) }
    ensures read_fault_has_cause { FailedToRead result
        → IfNone (F.held files.old) (Rose (F.faults files.old) (F.faults files.new)) }
    ensures no_fault { (FailedToRead result → ⊥) → F.faults files.new ≡ F.faults files.old }
{
    let file = read_file(alloc, files, path, MAX_PROFILE)?;
    book(alloc, &file, path)
}

/// Returns the profiles in the files of the paths, in their order.
/// Err is the fault of the first file that has one.
pub fn read_parts<'w, F: Files>(
    alloc: Global,
    files: &mut F,
    paths: &'w [String],
) -> Result<Vec<Part>, Fault<'w>>
    ensures same { F.held files.new ≡ F.held files.old }
    ensures of_paths { IfErr result (IsOfPaths (bytes_of paths.now) (F.held files.old)) }
    ensures right { IfOk result (λ parts. All IsRightPart parts.items) }
    ensures as_many { IfOk result (λ parts. length parts.items ≡ length paths.now) }
    ensures verdict { IfSome (F.held files.old) (λ held. (IsMemory result → ⊥) →
        Settles (λ (parts : Vec Part). parts.items) (parts_in (bytes_of paths.now) held)
        (F.faults files.old) (F.faults files.new) result) }
    ensures read_fault_has_cause { FailedToRead result
        → IfNone (F.held files.old) (Rose (F.faults files.old) (F.faults files.new)) }
    ensures no_fault { (FailedToRead result → ⊥) → F.faults files.new ≡ F.faults files.old }
{
    let mut parts = Vec::new(alloc);
    for i in 0..paths.len() {
        match read_part(alloc, files, paths[i].as_str()) {
            Ok(part) => parts.push(part)?,
            Err(fault) => return Err(fault),
        }
    }
    Ok(parts)
}

fn path_at(paths: &[String], part: usize) -> &str
    ensures { result.now ≡ get_or (bytes_of paths.now) part [] }
{
    match paths.get(part) {
        Some(path) => path.as_str(),
        None => "",
    }
}

/// Returns the averages of the profiles in the files of these paths, or the first of them that is
/// unlike those before it.
pub fn table<'w>(alloc: Global, parts: Vec<Part>, paths: &'w [String]) -> Result<Table, Fault<'w>>
    requires few { length parts.items ≤ most_runs }
    requires right { All IsRightPart parts.items }
    ensures of_paths { (told : _) → IfErr result (IsOfPaths (bytes_of paths.now) told) }
    ensures no_read { FailedToRead result → ⊥ }
    ensures averages { (IsMemory result → ⊥)
        → verdict_of result ≡ parts_verdict (bytes_of paths.now) parts.items }
{
    match unlike_part(&parts) {
        Some(unlike) => Err(Fault::Unlike(unlike.kind, path_at(paths, unlike.part))),
        None => {
            let averaged = averaged_of(alloc, parts)?;
            let averages = average(alloc, &averaged)?;
            Ok(Table { averages })
        }
    }
}
