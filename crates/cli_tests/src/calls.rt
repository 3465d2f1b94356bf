//! Calls of `coz`.
use crate::files::{Listed, files_of};
use crate::programs::{Answer, check_answer};
use crate::sinks::{Sinks, WIDE, two_sinks};
use coz_cli::serve;
use coz_files::{Files, FreeGate};
use std::alloc::{AllocError, Global};
use std::process::Abort;
use std::test::Fail;
use std::thread::Threads;

/// A program of three instructions that exits.
pub(crate) const ONE_SOURCE: &[u8] = b"    addi a0, x0, 0\n    addi a7, x0, 93\n    ecall\n";

pub(crate) fn texts(alloc: Global, words: &[&str]) -> Result<Vec<String>, AllocError> {
    let mut texts = Vec::new(alloc);
    for word in words {
        texts.push(String::from_str(alloc, word)?)?;
    }
    Ok(texts)
}

fn status_of<R: Threads + Sync + AllocGlobal, F: Files>(
    rt: &R,
    words: &[&str],
    files: &mut F,
    sinks: &mut Sinks,
) -> Result<u8, AllocError> {
    let alloc = rt.alloc();
    let words = texts(alloc, words)?;
    let out = &mut sinks.out;
    let err = &mut sinks.err;
    Ok(serve(rt, alloc, &words, files, out, err, &FreeGate))
}

fn check_call_in<R: Threads + Sync + AllocGlobal + Abort, F: Files>(
    rt: &R,
    words: &[&str],
    files: &mut F,
    sinks: &mut Sinks,
    expected: Answer,
) -> Result<(), Fail> {
    let status = status_of(rt, words, files, sinks)?;
    check_answer(rt, (status, sinks.out.held(), sinks.err.held()), expected)
}

/// Calls `coz`, and compares its exit status, its output and its error line with the expected ones.
pub(crate) fn check_call<R: Threads + Sync + AllocGlobal + Abort, F: Files>(
    rt: &R,
    words: &[&str],
    files: &mut F,
    expected: Answer,
) -> Result<(), Fail> {
    let mut sinks = two_sinks(rt.alloc(), (WIDE, WIDE))?;
    let checked = check_call_in(rt, words, files, &mut sinks, expected);
    // By one call, since a drop in place is proved part by part.
    drop(sinks);
    checked
}

fn printed_in<R: Threads + Sync + AllocGlobal>(
    rt: &R,
    words: &[&str],
    files: &[(&str, &[u8])],
    sinks: &mut Sinks,
) -> Result<(), AllocError> {
    let files = files_of(rt.alloc(), files)?;
    status_of(rt, words, &mut Listed::new(&files, &[]), sinks)?;
    Ok(())
}

/// What `coz` prints over files with these paths and bytes.
pub(crate) fn printed<R: Threads + Sync + AllocGlobal>(
    rt: &R,
    words: &[&str],
    files: &[(&str, &[u8])],
) -> Result<Vec<u8>, AllocError> {
    let mut sinks = two_sinks(rt.alloc(), (WIDE, WIDE))?;
    printed_in(rt, words, files, &mut sinks)?;
    sinks.out.held().to_vec(rt.alloc())
}

/// The program of a source.
pub(crate) fn assembled<R: Threads + Sync + AllocGlobal>(
    rt: &R,
    path: &str,
    source: &[u8],
) -> Result<Vec<u8>, AllocError> {
    printed(rt, &["asm", path], &[(path, source)])
}
