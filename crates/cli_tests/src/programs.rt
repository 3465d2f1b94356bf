//! Calls of the programs other than `coz`.
use crate::calls::texts;
use crate::files::Listed;
use crate::large::Large;
use crate::sinks::{ONE_FAILS, Room, Sinks, WIDE, first_texts, two_sinks};
use coz_files::{Files, FreeGate, HeldFile};
use functions_cli::serve_functions;
use gain_cli::serve_gain;
use hot_cli::serve_hot;
use join_cli::serve_join;
use std::alloc::AllocError;
use std::process::Abort;
use std::test::Fail;
use std::thread::Threads;

/// A program that reads files, and prints to two sinks.
#[derive(Clone, Copy)]
pub(crate) enum Program {
    Functions,
    Gain,
    Hot,
    Join,
    Page,
}

fn serve<R: Threads + Sync + AllocGlobal, F: Files>(
    rt: &R,
    program: Program,
    words: &[String],
    files: &mut F,
    sinks: &mut Sinks,
) -> u8 {
    let alloc = rt.alloc();
    let out = &mut sinks.out;
    let err = &mut sinks.err;
    match program {
        Program::Functions => serve_functions(alloc, words, files, out, err),
        Program::Gain => serve_gain(rt, alloc, words, files, out, err, &FreeGate),
        Program::Hot => serve_hot(alloc, words, files, out, err),
        Program::Join => serve_join(alloc, words, files, out, err),
        Program::Page => page_cli::serve(alloc, words, files, out, err),
    }
}

/// Calls a program, and returns its status.
pub(crate) fn status_of<R: Threads + Sync + AllocGlobal, F: Files>(
    rt: &R,
    program: Program,
    words: &[&str],
    files: &mut F,
    sinks: &mut Sinks,
) -> Result<u8, AllocError> {
    let words = texts(rt.alloc(), words)?;
    let status = serve(rt, program, &words, files, sinks);
    Ok(status)
}

/// An exit status, an output and an error line.
pub(crate) type Answer<'a> = (u8, &'a [u8], &'a [u8]);

pub(crate) fn check_answer<R: AllocGlobal + Abort>(
    rt: &R,
    found: Answer,
    expected: Answer,
) -> Result<(), Fail> {
    assert_eq!(rt; found, expected);
    Ok(())
}

fn check_call_in<R: Threads + Sync + AllocGlobal + Abort, F: Files>(
    rt: &R,
    program: Program,
    words: &[&str],
    files: &mut F,
    sinks: &mut Sinks,
    expected: Answer,
) -> Result<(), Fail> {
    let status = status_of(rt, program, words, files, sinks)?;
    check_answer(rt, (status, sinks.out.held(), sinks.err.held()), expected)
}

/// Calls a program, and compares its exit status, its output and its error line with the expected
/// ones.
pub(crate) fn check_call<R: Threads + Sync + AllocGlobal + Abort, F: Files>(
    rt: &R,
    program: Program,
    words: &[&str],
    files: &mut F,
    rooms: (Room, Room),
    expected: Answer,
) -> Result<(), Fail> {
    let mut sinks = two_sinks(rt.alloc(), rooms)?;
    let checked = check_call_in(rt, program, words, files, &mut sinks, expected);
    // By one call, since a drop in place is proved part by part.
    drop(sinks);
    checked
}

/// The arguments, and the expected exit status, output and error line.
pub(crate) type Row = (&'static [&'static str], u8, &'static [u8], &'static [u8]);

/// Calls a program with the arguments of each row.
pub(crate) fn check_rows<R: Threads + Sync + AllocGlobal + Abort>(
    rt: &R,
    program: Program,
    files: &[HeldFile],
    rows: &[Row],
) -> Result<(), Fail> {
    for (words, status, out, err) in rows {
        let expected = (*status, *out, *err);
        let mut files = Listed::new(files, &[]);
        check_call(rt, program, *words, &mut files, (WIDE, WIDE), expected)?;
    }
    Ok(())
}

/// The arguments, the reads that fail, both sinks, and the expected exit status, output and error
/// line.
pub(crate) type Fault = (
    &'static [&'static str],
    &'static [u64],
    (Room, Room),
    u8,
    &'static [u8],
    &'static [u8],
);

/// Calls a program whose reads and puts fail as each row says.
pub(crate) fn check_faults<R: Threads + Sync + AllocGlobal + Abort>(
    rt: &R,
    program: Program,
    files: &[HeldFile],
    faults: &[Fault],
) -> Result<(), Fail> {
    for (words, fails, rooms, status, out, err) in faults {
        let expected = (*status, *out, *err);
        let mut files = Listed::new(files, *fails);
        check_call(rt, program, *words, &mut files, *rooms, expected)?;
    }
    Ok(())
}

/// Calls a program whose error line consists of these texts, once for each put, and lets that put
/// fail.
pub(crate) fn check_failing_puts<R: Threads + Sync + AllocGlobal + Abort>(
    rt: &R,
    program: Program,
    files: &[HeldFile],
    words: &[&str],
    status: u8,
    texts: &[&[u8]],
) -> Result<(), Fail> {
    for (put, room) in ONE_FAILS.iter().enumerate() {
        let line = first_texts(rt.alloc(), texts, put)?;
        let expected = (status, b"".as_slice(), line.as_slice());
        let mut files = Listed::new(files, &[]);
        check_call(rt, program, words, &mut files, (WIDE, *room), expected)?;
    }
    Ok(())
}

/// The arguments, the number of bytes of the file `big`, and the expected exit status, output and
/// error line.
pub(crate) type Limit = (
    &'static [&'static str],
    u64,
    u8,
    &'static [u8],
    &'static [u8],
);

/// Calls a program whose file `big` consists of zeros, and every other file of these bytes.
pub(crate) fn check_limits<R: Threads + Sync + AllocGlobal + Abort>(
    rt: &R,
    program: Program,
    bytes: &[u8],
    limits: &[Limit],
) -> Result<(), Fail> {
    for (words, size, status, out, err) in limits {
        let expected = (*status, *out, *err);
        let mut files = Large { size: *size, bytes };
        check_call(rt, program, *words, &mut files, (WIDE, WIDE), expected)?;
    }
    Ok(())
}
