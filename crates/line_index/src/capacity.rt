//! Buffers that are allocated before the first path of a table is compared or made, and before
//! the first label is made: a hostile table is out of memory at once.

ghost use Rattle.std.specs.Prelude.{◌≡◌, ◌≤◌, ◌*◌, ◌-◌, ◌^◌, min, IfOk};
ghost use Rattle.std.specs.List.{sum_by};
ghost use Rattle.std.specs.Vec.{vec_capacity};
ghost use Rattle.line_index.specs.declared.capacity.TheConstants.{MAX_NAMED};
ghost use Rattle.line_index.specs.Keys.{label_size, name_size, texts};

use crate::backwards::path_at;
use crate::lines::Key;
use dwarf_lines::FileName;
use std::alloc::{AllocError, Global};

/// The most bytes that the names of files and of their directories have together, 128 MiB: four
/// times those of the largest file of a program. Only entries that share a text have more, and
/// to compare them takes as long as to read each of them whole.
const MAX_NAMED: usize = 0x800_0000;

/// The most bytes of a colon and a number.
const MAX_DIGITS: usize = 11;

/// The number of bytes of the names of the files and of their directories.
fn named_bytes(files: &[FileName]) -> usize
    ensures { result ≡ min (sum_by name_size files.now) (2 ^ 64 - 1) }
{
    let mut total: usize = 0;
    for file in files {
        total = total
            .saturating_add(file.directory.len())
            .saturating_add(file.name.len());
    }
    total
}

/// An empty vector with capacity for the path of each file, in which an escaped byte takes three
/// bytes. Out of memory also if the names have more bytes than `MAX_NAMED`. Nothing is written
/// into it, so it must not be inlined: the allocation would be removed.
#[inline(never)]
pub fn path_buffer(alloc: Global, files: &[FileName]) -> Result<Vec<u8>, AllocError>
    ensures capacity { IfOk result (λ buffer. 3 * sum_by name_size files.now ≤ vec_capacity buffer) }
    ensures bounded { IfOk result (λ buffer. sum_by name_size files.now ≤ MAX_NAMED) }
{
    let bytes = named_bytes(files);
    if MAX_NAMED < bytes {
        return Err(AllocError);
    }
    Vec::with_capacity(alloc, bytes * 3)
}

/// The number of bytes that the labels of the lines have at most.
fn label_bytes(paths: &[Vec<u8>], keys: &[Key]) -> usize
    ensures { result ≡ min (sum_by (label_size (texts paths.now)) keys.now) (2 ^ 64 - 1) }
{
    let mut total: usize = 0;
    for key in keys {
        total = total
            .saturating_add(path_at(paths, key.path).len())
            .saturating_add(MAX_DIGITS);
    }
    total
}

/// An empty vector with capacity for the labels of all lines. A table of few bytes may give a long
/// path to very many lines: this call is then out of memory before the first label is made.
#[inline(never)]
pub fn label_buffer(alloc: Global, paths: &[Vec<u8>], keys: &[Key]) -> Result<Vec<u8>, AllocError>
    ensures { IfOk result (λ buffer.
        sum_by (label_size (texts paths.now)) keys.now ≤ vec_capacity buffer) }
{
    Vec::with_capacity(alloc, label_bytes(paths, keys))
}
