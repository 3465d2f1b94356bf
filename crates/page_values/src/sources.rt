//! The source files of labels.
ghost use Rattle.std.specs.Prelude.{◌≡◌, ◌≤◌, ◌++◌, ℕ, List, codes, ◌∷◌, [], true, is_some, IfSome, IfOk, OnOk};
ghost use Rattle.std.specs.Option.{option_copied};
ghost use Rattle.std.specs.Str.{is_utf8};
ghost use Rattle.coz_files.specs.Held.{file_at};
ghost use Rattle.coz_files.specs.InMemory.{entries};
ghost use Rattle.page_values.specs.Sources.{IsAnswer, AreRight, IsText, look_up, short, short_at, source_in};

use coz_files::{FileAnswer, Files, HeldFile};
use std::alloc::{AllocError, Global};

/// The most bytes of a source file whose lines are shown.
pub const MAX_SOURCE: u64 = 0x100_0000;

/// The bytes of the first of the files that has this path.
fn bytes_at<'a>(files: &'a [HeldFile], path: &[u8]) -> Option<&'a [u8]>
    ensures { option_copied result ≡ file_at (entries files.now) path.now }
{
    for file in files {
        if file.path.as_slice() == path {
            return Some(file.bytes.as_slice());
        }
    }
    None
}

/// The bytes of the first of the files that has this path, or no bytes.
pub fn look_up<'a>(files: &'a [HeldFile], path: &[u8]) -> &'a [u8]
    ensures { result.now ≡ look_up (entries files.now) path.now }
{
    match bytes_at(files, path) {
        Some(bytes) => bytes,
        None => b"",
    }
}

fn text_of(bytes: &[u8]) -> Option<&str>
    ensures { IsText bytes.now (option_copied result) }
{
    match str::from_utf8(bytes) {
        Ok(text) => Some(text),
        Err(_) => None,
    }
}

/// The file of a path. No bytes if there is none, it is too long, or a read fails.
fn read_path<F: Files>(alloc: Global, files: &mut F, path: &str) -> Result<Vec<u8>, AllocError>
    ensures same { F.held files.new ≡ F.held files.old }
    ensures later { F.faults files.old ≤ F.faults files.new }
    ensures answer { IfSome (F.held files.old) (λ held. IfOk result (λ bytes.
        IsAnswer (short (file_at held path.now)) (F.faults files.old) (F.faults files.new)
        bytes.items)) }
{
    let mut bytes = Vec::new(alloc);
    match files.read_whole(path, MAX_SOURCE, &mut bytes) {
        FileAnswer::Whole => Ok(bytes),
        FileAnswer::Memory => Err(AllocError),
        FileAnswer::Longer | FileAnswer::Failed => Ok(Vec::new(alloc)),
    }
}

fn read_named<F: Files>(alloc: Global, files: &mut F, name: &[u8]) -> Result<Vec<u8>, AllocError>
    ensures same { F.held files.new ≡ F.held files.old }
    ensures later { F.faults files.old ≤ F.faults files.new }
    ensures answer { IfSome (F.held files.old) (λ held. IfOk result (λ bytes.
        IsAnswer (short_at held name.now) (F.faults files.old) (F.faults files.new)
        bytes.items)) }
{
    match text_of(name) {
        Some(path) => read_path(alloc, files, path),
        None => Ok(Vec::new(alloc)),
    }
}

fn joined(alloc: Global, folder: &[u8], path: &[u8]) -> Result<Vec<u8>, AllocError>
    ensures { IfOk result (λ name. name.items ≡ folder.now ++ codes "/" ++ path.now) }
{
    let mut name = Vec::from_slice(alloc, folder)?;
    name.extend_from_slice(b"/")?;
    name.extend_from_slice(path)?;
    Ok(name)
}

fn read_below<F: Files>(
    alloc: Global,
    files: &mut F,
    folder: &[u8],
    path: &[u8],
) -> Result<Vec<u8>, AllocError>
    ensures same { F.held files.new ≡ F.held files.old }
    ensures later { F.faults files.old ≤ F.faults files.new }
    ensures answer { IfSome (F.held files.old) (λ held. IfOk result (λ bytes.
        IsAnswer (source_in held folder.now path.now) (F.faults files.old) (F.faults files.new)
        bytes.items)) }
{
    let name = joined(alloc, folder, path)?;
    read_named(alloc, files, &name)
}

/// Adds a file with these bytes. Fails only if out of memory.
fn add(
    alloc: Global,
    sources: &mut Vec<HeldFile>,
    path: &[u8],
    bytes: Vec<u8>,
) -> Result<(), AllocError>
    ensures { OnOk result (entries sources.new.items
        ≡ entries sources.old.items ++ (path.now, bytes.items) ∷ []) }
{
    let path = Vec::from_slice(alloc, path)?;
    sources.push(HeldFile { path, bytes })?;
    Ok(())
}

/// Reads the file of a path below a folder, and adds it.
fn read_new<F: Files>(
    alloc: Global,
    files: &mut F,
    folder: &[u8],
    path: &[u8],
    sources: &mut Vec<HeldFile>,
) -> Result<(), AllocError>
    ensures same { F.held files.new ≡ F.held files.old }
    ensures later { F.faults files.old ≤ F.faults files.new }
    ensures there { OnOk result (is_some (file_at (entries sources.new.items) path.now) ≡ true) }
    ensures kept { OnOk result ((other : List ℕ)
        → is_some (file_at (entries sources.old.items) other) ≡ true
        → is_some (file_at (entries sources.new.items) other) ≡ true) }
    ensures right { IfSome (F.held files.old) (λ held. OnOk result ((start : ℕ)
        → start ≤ F.faults files.old
        → AreRight held folder.now start (F.faults files.old) (entries sources.old.items)
        → AreRight held folder.now start (F.faults files.new) (entries sources.new.items))) }
{
    let bytes = read_below(alloc, files, folder, path)?;
    add(alloc, sources, path, bytes)
}

/// Reads the file of a path below a folder, unless a file of this path is there. A file that does
/// not exist, cannot be read, has more than 16,777,216 bytes or a name that is not UTF-8 is added
/// without bytes. Fails only if out of memory.
pub fn read_source<F: Files>(
    alloc: Global,
    files: &mut F,
    folder: &[u8],
    path: &[u8],
    sources: &mut Vec<HeldFile>,
) -> Result<(), AllocError>
    ensures same { F.held files.new ≡ F.held files.old }
    ensures later { F.faults files.old ≤ F.faults files.new }
    ensures once { is_some (file_at (entries sources.old.items) path.now) ≡ true
        → (files.new ≡ files.old) × (sources.new ≡ sources.old) }
    ensures there { OnOk result (is_some (file_at (entries sources.new.items) path.now) ≡ true) }
    ensures kept { OnOk result ((other : List ℕ)
        → is_some (file_at (entries sources.old.items) other) ≡ true
        → is_some (file_at (entries sources.new.items) other) ≡ true) }
    ensures right { IfSome (F.held files.old) (λ held. OnOk result ((start : ℕ)
        → start ≤ F.faults files.old
        → AreRight held folder.now start (F.faults files.old) (entries sources.old.items)
        → AreRight held folder.now start (F.faults files.new) (entries sources.new.items))) }
{
    if bytes_at(sources.as_slice(), path).is_some() {
        return Ok(());
    }
    read_new(alloc, files, folder, path, sources)
}
