//! The texts of faults, and their statuses.
ghost use Rattle.std.specs.Prelude.{◌≡◌, ◌++◌, codes, decimal};
ghost use Rattle.coz_files.specs.Puts.{Continues};
ghost use Rattle.file_read.specs.Faults.{file_status, file_line};

use crate::fault::FileFault;
use coz_files::{MEMORY_STATUS, PutAnswer, Sink, put_next, put_number};

/// Returns the exit status of a fault.
pub fn status_of(fault: FileFault) -> u8
    ensures { result ≡ file_status fault.entry }
{
    match fault {
        FileFault::Usage => 2,
        FileFault::Read(_) => 5,
        FileFault::Write => 6,
        FileFault::Long(_) => 8,
        FileFault::Memory => MEMORY_STATUS,
    }
}

/// Puts the name of a fault and the path of its file, if it has one. Puts nothing if a put failed
/// before. The caller puts the program's name first, and ends the line.
pub fn put_fault<S: Sink>(sink: &mut S, so_far: PutAnswer, fault: FileFault) -> PutAnswer
    ensures { Continues S.holds S.faults sink.old sink.new so_far result (file_line fault.entry) }
{
    match fault {
        FileFault::Usage => put_next(sink, so_far, b"usage"),
        FileFault::Read(path) => put_two(sink, so_far, b"read: ", path.as_bytes()),
        FileFault::Write => put_next(sink, so_far, b"write"),
        FileFault::Long(path) => put_two(sink, so_far, b"long: ", path.as_bytes()),
        FileFault::Memory => put_next(sink, so_far, b"memory"),
    }
}

/// Puts two pieces, one after the other, unless a put failed before.
pub fn put_two<S: Sink>(sink: &mut S, so_far: PutAnswer, first: &[u8], second: &[u8]) -> PutAnswer
    ensures { Continues S.holds S.faults sink.old sink.new so_far result
        (first.now ++ second.now) }
{
    let answer = put_next(sink, so_far, first);
    put_next(sink, answer, second)
}

/// Puts a prefix, the kind of a fault and its offset, unless a put failed before.
pub fn put_kind_at<S: Sink>(
    sink: &mut S,
    so_far: PutAnswer,
    before: &[u8],
    kind: &[u8],
    offset: u64,
) -> PutAnswer
    ensures { Continues S.holds S.faults sink.old sink.new so_far result
        (before.now ++ kind.now ++ codes " at " ++ decimal offset) }
{
    let answer = put_next(sink, so_far, before);
    let answer = put_next(sink, answer, kind);
    let answer = put_next(sink, answer, b" at ");
    put_number(sink, answer, offset)
}
