//! Tests of the host's files and of its sink in `coz_files`.
ghost use Rattle.std.specs.Prelude.{◌≤◌, length};

use crate::checks::check_equal;
use coz_files::{FileAnswer, Files, HostFiles, HostSink, PutAnswer, Sink};
use std::alloc::{AllocError, Global};
use std::io::{Error, ErrorKind, Write};
use std::process::Abort;
use std::test::Fail;
use std::{env, fs, io, process, rt};

/// More than 20 MiB, which take many reads.
const LENGTH: usize = 20 * 1024 * 1024 + 1;

/// A stream that takes these bytes and no others, three at a time, and is interrupted before each
/// such piece.
#[derive(Drop)]
struct Pieces {
    bytes: &'static [u8],
    written: usize,
    was_interrupted: bool,
}

impl Pieces {
    fn new(bytes: &'static [u8]) -> Pieces {
        Pieces {
            bytes,
            written: 0,
            was_interrupted: false,
        }
    }

    /// At most `most` of the next bytes, and never more than three.
    fn piece(&mut self, most: usize) -> &'static [u8]
        ensures { length result.now ≤ most }
    {
        let rest = self.bytes.get(self.written..).unwrap_or(&[]);
        let size = rest.len().min(most).min(3);
        self.written = self.written.saturating_add(size);
        &rest[..size]
    }
}

impl Write for Pieces {
    fn write(&mut self, buf: &[u8]) -> io::Result<usize> {
        self.was_interrupted = !self.was_interrupted;
        if self.was_interrupted {
            return Err(Error::from(ErrorKind::Interrupted));
        }
        let piece = self.piece(buf.len());
        if !buf.starts_with(piece) {
            return Err(Error::from(ErrorKind::InvalidInput));
        }
        Ok(piece.len())
    }

    fn flush(&mut self) -> io::Result<()> {
        Ok(())
    }
}

/// The bytes of a file of that length.
fn file_bytes(alloc: Global) -> Result<Vec<u8>, AllocError> {
    let mut bytes = Vec::new(alloc);
    for i in 0..LENGTH {
        bytes.push((i % 251) as u8)?;
    }
    Ok(bytes)
}

/// Reads the file of a path up to its length and up to a byte less, and compares what is read.
fn check_reads<R: rt::Files + AllocGlobal + Abort>(rt: &R, path: &str, bytes: &[u8]) {
    let mut files = HostFiles::new(rt);
    let mut whole = Vec::new(rt.alloc());
    let answer = files.read_whole(path, LENGTH as u64, &mut whole);
    let is_same = whole.as_slice() == bytes;
    check_equal(rt, (answer, is_same), (FileAnswer::Whole, true));
    whole.clear();
    let answer = files.read_whole(path, LENGTH as u64 - 1, &mut whole);
    let is_same = whole.as_slice() == bytes;
    check_equal(rt, (answer, is_same), (FileAnswer::Longer, true));
}

fn check_no_file<R: rt::Files + AllocGlobal + Abort>(rt: &R, path: &str) {
    let mut bytes = Vec::new(rt.alloc());
    let answer = HostFiles::new(rt).read_whole(path, 5, &mut bytes);
    check_equal(rt, (answer, bytes.len()), (FileAnswer::Failed, 0));
}

fn check_file<R: rt::Files + AllocGlobal + Abort>(rt: &R, path: &str) -> io::Result<()> {
    let bytes = file_bytes(rt.alloc())?;
    let written = fs::write(rt, path, bytes.as_slice());
    if written.is_ok() {
        check_reads(rt, path, &bytes);
    }
    drop(bytes);
    written?;
    fs::remove_file(rt, path)?;
    check_no_file(rt, path);
    Ok(())
}

#[test]
fn a_file_of_the_system_is_read_up_to_a_limit(rt: HostRuntime) -> Result<(), Fail> {
    let name = format!(in rt.alloc(); "coz_files.{}", process::id(rt.process()))?;
    let path = env::temp_dir(&rt)?.join(rt.alloc(), name.as_str())?;
    let checked = check_file(&rt, path.as_str());
    drop(path);
    drop(name);
    Ok(checked?)
}

#[test]
fn a_stream_that_takes_pieces_gets_all_bytes(rt: HostRuntime) {
    let mut sink = HostSink::new(Pieces::new(b"one more."));
    // A byte that is left out of a text shows at the next text.
    let puts = [
        sink.put(b"one "),
        sink.put(b""),
        sink.put(b"more"),
        sink.put(b"."),
    ];
    check_equal(&rt, puts, [PutAnswer::Done; 4]);
}
