//! The comparisons that the tests share.
use sha2::{Digest, Sha256};
use std::fmt::Debug;
use std::process::Abort;

/// Ends the test unless both are equal, and prints them then.
///
/// Each assertion is proved by itself, so the tests share this one.
pub(crate) fn check_equal<T: Debug + PartialEq + Copy>(rt: &impl Abort, found: T, expected: T) {
    assert_eq!(rt; found, expected);
}

/// What a call is expected to print.
#[derive(Clone, Copy)]
pub(crate) enum Output<'a> {
    /// These bytes.
    Whole(&'a [u8]),
    /// These bytes first, and this many in all.
    Head(&'a [u8], usize),
    /// Bytes with this SHA-256, and this many.
    Digest([u8; 32], usize),
    /// The record of a run that ends like this and has this output, which its length precedes.
    Run(&'a str, &'a str),
}

/// How the run has ended, and the output with its length, in what `run` prints.
fn end_and_output(printed: &[u8]) -> (&str, &str) {
    let text = str::from_utf8(printed).unwrap_or("");
    let (end, rest) = text.split_once("\ntime ").unwrap_or((text, ""));
    let (_, output) = rest.rsplit_once("\noutput ").unwrap_or(("", rest));
    (end, output)
}

fn first_bytes(bytes: &[u8], count: usize) -> &[u8] {
    bytes.get(..count).unwrap_or(bytes)
}

fn check_output(rt: &impl Abort, found: &[u8], expected: Output) {
    match expected {
        Output::Whole(text) => check_equal(rt, found, text),
        Output::Head(text, length) => check_equal(
            rt,
            (first_bytes(found, text.len()), found.len()),
            (text, length),
        ),
        Output::Digest(digest, length) => check_equal(
            rt,
            (Sha256::digest(found), found.len()),
            (digest, length),
        ),
        Output::Run(end, output) => check_equal(rt, end_and_output(found), (end, output)),
    }
}

/// An exit status, an output and an error line.
pub(crate) type Answer<'a> = (u8, &'a [u8], &'a [u8]);

/// The expected exit status, output and error line.
pub(crate) type Expected<'a> = (u8, Output<'a>, &'a [u8]);

/// Compares the answer of a call with these arguments with the expected one.
pub(crate) fn check_answer(rt: &impl Abort, words: &[&str], found: Answer, expected: Expected) {
    let (status, out, err) = found;
    check_equal(rt, (words, status, err), (words, expected.0, expected.2));
    check_output(rt, out, expected.1);
}
