//! Calls of `coz` over files and sinks in memory.
use crate::checks::{Expected, Output, check_answer};
use crate::sources::Source;
use coz_cli::serve;
use coz_files::{FreeGate, Gate, HeldFile, MemoryFiles, MemorySink};
use std::alloc::{AllocError, Global};
use std::process::Abort;
use std::test::Fail;
use std::thread::Threads;

/// A sink with room for this many bytes, of which the puts with these numbers fail, from 0.
#[derive(Clone, Copy)]
pub(crate) struct Room {
    pub(crate) bytes: u64,
    pub(crate) fails: &'static [u64],
}

/// A sink that takes what is put.
pub(crate) const WIDE: Room = Room {
    bytes: 5_000_000,
    fails: &[],
};

/// A sink with room for ten bytes.
pub(crate) const TEN: Room = Room {
    bytes: 10,
    fails: &[],
};

/// What a call finds: files, the reads that fail, from 0, and the sinks of its output and of its
/// error line.
#[derive(Clone, Copy)]
pub(crate) struct Setup<'a> {
    pub(crate) files: &'a [HeldFile],
    pub(crate) fails: &'a [u64],
    pub(crate) rooms: (Room, Room),
}

/// Files and sinks that don't fail.
pub(crate) fn over(files: &[HeldFile]) -> Setup {
    Setup {
        files,
        fails: &[],
        rooms: (WIDE, WIDE),
    }
}

/// The sinks of the output and of the error line.
#[derive(Drop)]
pub(crate) struct Sinks {
    pub(crate) out: MemorySink,
    pub(crate) err: MemorySink,
}

fn sink(alloc: Global, room: Room) -> Result<MemorySink, AllocError> {
    MemorySink::new(alloc, room.bytes, room.fails.to_vec(alloc)?)
}

pub(crate) fn two_sinks(alloc: Global, rooms: (Room, Room)) -> Result<Sinks, AllocError> {
    let out = sink(alloc, rooms.0)?;
    let err = sink(alloc, rooms.1)?;
    Ok(Sinks { out, err })
}

/// Adds a file of these bytes, which are copied.
pub(crate) fn add(
    alloc: Global,
    files: &mut Vec<HeldFile>,
    path: &[u8],
    bytes: &[u8],
) -> Result<(), AllocError> {
    let path = path.to_vec(alloc)?;
    let bytes = bytes.to_vec(alloc)?;
    files.push(HeldFile { path, bytes })?;
    Ok(())
}

/// One file of these bytes.
pub(crate) fn one_file(
    alloc: Global,
    path: &str,
    bytes: &[u8],
) -> Result<Vec<HeldFile>, AllocError> {
    let mut files = Vec::new(alloc);
    add(alloc, &mut files, path.as_bytes(), bytes)?;
    Ok(files)
}

fn copies(alloc: Global, files: &[HeldFile]) -> Result<Vec<HeldFile>, AllocError> {
    let mut copies = Vec::new(alloc);
    for file in files {
        add(alloc, &mut copies, &file.path, &file.bytes)?;
    }
    Ok(copies)
}

fn memory_files(alloc: Global, setup: &Setup) -> Result<MemoryFiles, AllocError> {
    let fails = setup.fails.to_vec(alloc)?;
    let files = copies(alloc, setup.files)?;
    Ok(MemoryFiles::new(files, fails))
}

fn texts(alloc: Global, words: &[&str]) -> Result<Vec<String>, AllocError> {
    let mut texts = Vec::new(alloc);
    for word in words {
        texts.push(String::from_str(alloc, word)?)?;
    }
    Ok(texts)
}

fn status_over<R: Threads + Sync + AllocGlobal, G: Gate>(
    rt: &R,
    words: &[&str],
    files: &mut MemoryFiles,
    sinks: &mut Sinks,
    gate: &G,
) -> Result<u8, AllocError> {
    let alloc = rt.alloc();
    let words = texts(alloc, words)?;
    let out = &mut sinks.out;
    let err = &mut sinks.err;
    Ok(serve(rt, alloc, &words, files, out, err, gate))
}

/// Calls `coz`, and returns its exit status.
pub(crate) fn status_of<R: Threads + Sync + AllocGlobal, G: Gate>(
    rt: &R,
    words: &[&str],
    setup: &Setup,
    sinks: &mut Sinks,
    gate: &G,
) -> Result<u8, AllocError> {
    let mut files = memory_files(rt.alloc(), setup)?;
    let status = status_over(rt, words, &mut files, sinks, gate);
    // By one call, since a drop in place is proved part by part.
    drop(files);
    status
}

fn check_call_in<R: Threads + Sync + AllocGlobal + Abort>(
    rt: &R,
    words: &[&str],
    setup: &Setup,
    sinks: &mut Sinks,
    expected: Expected,
) -> Result<(), Fail> {
    let status = status_of(rt, words, setup, sinks, &FreeGate)?;
    let found = (status, sinks.out.held(), sinks.err.held());
    check_answer(rt, words, found, expected);
    Ok(())
}

/// Calls `coz`, and compares its exit status, its output and its error line with the expected ones.
pub(crate) fn check_call<R: Threads + Sync + AllocGlobal + Abort>(
    rt: &R,
    words: &[&str],
    setup: &Setup,
    expected: Expected,
) -> Result<(), Fail> {
    let mut sinks = two_sinks(rt.alloc(), setup.rooms)?;
    let checked = check_call_in(rt, words, setup, &mut sinks, expected);
    // By one call, since a drop in place is proved part by part.
    drop(sinks);
    checked
}

/// Calls `coz` with a command and its arguments.
fn check_command<'a, R: Threads + Sync + AllocGlobal + Abort>(
    rt: &R,
    command: &'a str,
    options: &[&'a str],
    files: &[HeldFile],
    expected: Expected,
) -> Result<(), Fail> {
    let mut words = Vec::new(rt.alloc());
    words.push(command)?;
    words.extend_from_slice(options)?;
    check_call(rt, &words, &over(files), expected)
}

/// The arguments, and the expected exit status, output and error line.
pub(crate) type Row = (&'static [&'static str], u8, &'static [u8], &'static [u8]);

/// Calls `coz` with the arguments of each row.
pub(crate) fn check_rows<R: Threads + Sync + AllocGlobal + Abort>(
    rt: &R,
    files: &[HeldFile],
    rows: &[Row],
) -> Result<(), Fail> {
    for (words, status, out, err) in rows {
        let expected = (*status, Output::Whole(*out), *err);
        check_call(rt, *words, &over(files), expected)?;
    }
    Ok(())
}

/// A program and options, the exit status, and what `run` and `really` print.
pub(crate) type Pair = (&'static [&'static str], u8, &'static [u8], &'static [u8]);

fn check_pair<R: Threads + Sync + AllocGlobal + Abort>(
    rt: &R,
    programs: &[HeldFile],
    pair: &Pair,
) -> Result<(), Fail> {
    let (options, status, delayed, shortened) = *pair;
    let run = (status, Output::Whole(delayed), b"".as_slice());
    check_command(rt, "run", options, programs, run)?;
    let really = (status, Output::Whole(shortened), b"".as_slice());
    check_command(rt, "really", options, programs, really)
}

/// Calls `run` and `really` with the options of each pair.
pub(crate) fn check_pairs<R: Threads + Sync + AllocGlobal + Abort>(
    rt: &R,
    programs: &[HeldFile],
    pairs: &[Pair],
) -> Result<(), Fail> {
    for pair in pairs {
        check_pair(rt, programs, pair)?;
    }
    Ok(())
}

fn printed_in<R: Threads + Sync + AllocGlobal>(
    rt: &R,
    words: &[&str],
    files: &[HeldFile],
    sinks: &mut Sinks,
) -> Result<Vec<u8>, AllocError> {
    status_of(rt, words, &over(files), sinks, &FreeGate)?;
    sinks.out.held().to_vec(rt.alloc())
}

/// What `coz` prints.
pub(crate) fn printed<R: Threads + Sync + AllocGlobal>(
    rt: &R,
    words: &[&str],
    files: &[HeldFile],
) -> Result<Vec<u8>, AllocError> {
    let mut sinks = two_sinks(rt.alloc(), (WIDE, WIDE))?;
    let printed = printed_in(rt, words, files, &mut sinks);
    // By one call, since a drop in place is proved part by part.
    drop(sinks);
    printed
}

/// The program of a source.
pub(crate) fn assembled<R: Threads + Sync + AllocGlobal>(
    rt: &R,
    path: &str,
    source: &[u8],
) -> Result<Vec<u8>, AllocError> {
    let files = one_file(rt.alloc(), path, source)?;
    printed(rt, &["asm", path], &files)
}

fn add_assembled<R: Threads + Sync + AllocGlobal>(
    rt: &R,
    files: &mut Vec<HeldFile>,
    path: &str,
    source: &[u8],
) -> Result<(), AllocError> {
    let program = assembled(rt, path, source)?;
    let path = path.strip_suffix(".s").unwrap_or(path);
    add(rt.alloc(), files, path.as_bytes(), &program)
}

/// The programs of these sources, each at its path without the ending.
pub(crate) fn programs_of<R: Threads + Sync + AllocGlobal>(
    rt: &R,
    sources: &[Source],
) -> Result<Vec<HeldFile>, AllocError> {
    let mut programs = Vec::new(rt.alloc());
    for (path, source) in sources {
        add_assembled(rt, &mut programs, path, *source)?;
    }
    Ok(programs)
}
