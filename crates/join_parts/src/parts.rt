//! The profiles in the files of paths, and the profile that they are parts of.
ghost use Rattle.std.specs.Prelude.{◌≡◌, ◌<◌, ℕ, List, [], length, get_or, All, None, Some, IfOk, IfErr, IfSome, IfNone};
ghost use Rattle.std.specs.Global.{Vec};
ghost use Rattle.coz_files.specs.Faults.{Rose};
ghost use Rattle.coz_files.specs.Held.{file_at};
ghost use Rattle.profile_book.specs.Profile.{IsProfile};
ghost use Rattle.timing_reader.specs.Reading.{timed_text};
ghost use Rattle.join_parts.specs.Verdict.{bytes_of, timed_in, part_in, parts_in, profiles_of, IsJoinVerdict, IsRightPart, IsTimedVerdict};
ghost use Rattle.join_parts.specs.Answer.{judged, verdict_of, IsMemory, FailedToRead, IsOfPath, IsOfPaths, Settles};

use crate::fault::Fault;
use crate::joined::Joined;
use crate::likeness::unlike_part;
use crate::part::Part;
use coz_files::Files;
use file_read::{FileFault, read_file};
use profile_book::Profile;
use profile_join::{JoinError, join};
use profile_reader::{BookError, MAX_PROFILE, read_profile};
use std::alloc::{AllocError, Global};
use timing_model::Timing;
use timing_reader::timed_text;

/// Returns the profile, and its machine, of which the bytes are the text, if they are one's.
fn book<'w>(alloc: Global, bytes: &[u8], path: &'w str) -> Result<Part, Fault<'w>>
    ensures of_path { IfErr result (IsOfPath path.now) }
    ensures no_read { FailedToRead result → ⊥ }
    ensures right { IfOk result IsRightPart }
    ensures judged { (IsMemory result → ⊥) → judged (λ (p : Part). p) result
        ≡ timed_in path.now (timed_text bytes.now) }
{
    let (timing, text) = timed_text(bytes);
    match read_profile(alloc, text) {
        Ok(profile) => Ok(Part { timing, profile }),
        Err(BookError::Fault(fault)) => Err(Fault::Profile(fault, path)),
        Err(BookError::Memory) => Err(Fault::File(FileFault::Memory)),
    }
}

/// Returns the profile in the file of a path, and its machine. The file's bytes are let go.
fn read_part<'w, F: Files>(alloc: Global, files: &mut F, path: &'w str) -> Result<Part, Fault<'w>>
    ensures same { F.held files.new ≡ F.held files.old }
    ensures of_path { IfErr result (IsOfPath path.now) }
    ensures right { IfOk result IsRightPart }
    ensures verdict { IfSome (F.held files.old) (λ held. (IsMemory result → ⊥) →
        Settles (λ (p : Part). p) (part_in path.now (file_at held path.now))
        (F.faults files.old) (F.faults files.new) result) }
    ensures read_fault_has_cause { FailedToRead result
        → IfNone (F.held files.old) (Rose (F.faults files.old) (F.faults files.new)) }
    ensures no_fault { (FailedToRead result → ⊥) → F.faults files.new ≡ F.faults files.old }
{
    let file = read_file(alloc, files, path, MAX_PROFILE)?;
    book(alloc, &file, path)
}

/// Returns the profiles in the files of the paths, in their order.
/// Err is the fault of the first file that has one.
pub fn read_parts<'w, F: Files>(
    alloc: Global,
    files: &mut F,
    paths: &'w [String],
) -> Result<Vec<Part>, Fault<'w>>
    ensures same { F.held files.new ≡ F.held files.old }
    ensures of_paths { IfErr result (IsOfPaths (bytes_of paths.now) (F.held files.old)) }
    ensures right { IfOk result (λ parts. All IsRightPart parts.items) }
    ensures as_many { IfOk result (λ parts. length parts.items ≡ length paths.now) }
    ensures verdict { IfSome (F.held files.old) (λ held. (IsMemory result → ⊥) →
        Settles (λ (parts : Vec Part). parts.items) (parts_in (bytes_of paths.now) held)
        (F.faults files.old) (F.faults files.new) result) }
    ensures read_fault_has_cause { FailedToRead result
        → IfNone (F.held files.old) (Rose (F.faults files.old) (F.faults files.new)) }
    ensures no_fault { (FailedToRead result → ⊥) → F.faults files.new ≡ F.faults files.old }
{
    let mut parts = Vec::new(alloc);
    for i in 0..paths.len() {
        match read_part(alloc, files, paths[i].as_str()) {
            Ok(part) => parts.push(part)?,
            Err(fault) => return Err(fault),
        }
    }
    Ok(parts)
}

fn path_at(paths: &[String], part: usize) -> &str
    ensures { result.now ≡ get_or (bytes_of paths.now) part [] }
{
    match paths.get(part) {
        Some(path) => path.as_str(),
        None => "",
    }
}

/// Returns the profiles of the parts, in their order.
fn profiles_of(alloc: Global, parts: Vec<Part>) -> Result<Vec<Profile>, AllocError>
    ensures { IfOk result (λ profiles. profiles.items ≡ profiles_of parts.items) }
{
    let mut profiles = Vec::new(alloc);
    for part in parts {
        let Part { timing: _, profile } = part;
        profiles.push(profile)?;
    }
    Ok(profiles)
}

/// Returns the profile of a machine that these are parts of, or the fault of the parts in these
/// files.
fn joined_on<'w>(
    timing: Timing,
    alloc: Global,
    parts: Vec<Profile>,
    paths: &'w [String],
) -> Result<Joined, Fault<'w>>
    requires some { 0 < length parts.items }
    requires right { All IsProfile parts.items }
    ensures of_paths { (told : _) → IfErr result (IsOfPaths (bytes_of paths.now) told) }
    ensures no_read { FailedToRead result → ⊥ }
    ensures joined { (IsMemory result → ⊥)
        → IsJoinVerdict timing (bytes_of paths.now) parts.items (verdict_of result) }
{
    match join(alloc, parts) {
        Ok(profile) => Ok(Joined { timing, profile }),
        Err(JoinError::Unlike(fault)) => {
            let path = path_at(paths, fault.part);
            Err(Fault::Parts(fault.kind, path))
        }
        Err(JoinError::Memory) => Err(Fault::File(FileFault::Memory)),
    }
}

/// Returns the profile that these are parts of, with its machine, or the fault of the parts in
/// these files.
pub fn joined<'w>(alloc: Global, parts: Vec<Part>, paths: &'w [String]) -> Result<Joined, Fault<'w>>
    requires some { 0 < length parts.items }
    requires right { All IsRightPart parts.items }
    ensures of_paths { (told : _) → IfErr result (IsOfPaths (bytes_of paths.now) told) }
    ensures no_read { FailedToRead result → ⊥ }
    ensures joined { (IsMemory result → ⊥)
        → IsTimedVerdict (bytes_of paths.now) parts.items (verdict_of result) }
{
    match unlike_part(&parts) {
        Some(place) => Err(Fault::Timing(path_at(paths, place))),
        None => {
            let timing = parts[0].timing;
            let profiles = profiles_of(alloc, parts)?;
            joined_on(timing, alloc, profiles, paths)
        }
    }
}
