//! The join of profiles over files in memory.
use crate::files::{Listed, file_at};
use crate::join_files::all_books;
use crate::programs::{
    Fault, Limit, Program, check_call, check_failing_puts, check_faults, check_limits,
};
use crate::sinks::{Room, SHUT, WIDE};
use coz_files::HeldFile;
use std::test::Fail;

/// The words, the status, the profile that is printed, and the line on the error stream.
type Row = (&'static [&'static str], u8, &'static str, &'static [u8]);

/// By hand, as all tables of this module: docs/FORMATS.md, Join.
static ROWS: [Row; 40] = [
    (&["a", "b"], 0, "all", b""),
    (&["b", "a"], 0, "all", b""),
    (&["--", "a", "b"], 0, "all", b""),
    (&["k", "b", "a"], 0, "all", b""),
    (&["a"], 0, "a", b""),
    (&["a", "k"], 0, "a", b""),
    (&["k"], 0, "k", b""),
    (&["m"], 0, "m", b""),
    (&["p", "q"], 0, "pq", b""),
    (&["s"], 1, "s", b""),
    (&[], 2, "", b"coz-join: usage\n"),
    (&["-x"], 2, "", b"coz-join: usage\n"),
    (&["a", "--"], 2, "", b"coz-join: usage\n"),
    (&[""], 2, "", b"coz-join: usage\n"),
    (&["--"], 2, "", b"coz-join: usage\n"),
    (&["absent"], 5, "", b"coz-join: read: absent\n"),
    (&["a", "absent"], 5, "", b"coz-join: read: absent\n"),
    (&["--", "-x"], 5, "", b"coz-join: read: -x\n"),
    (
        &["a", "n"],
        12,
        "",
        b"coz-join: profile: Selected at 56 in n\n",
    ),
    (
        &["n", "absent"],
        12,
        "",
        b"coz-join: profile: Selected at 56 in n\n",
    ),
    (&["a", "f"], 14, "", b"coz-join: parts: Budget in f\n"),
    (&["a", "g"], 14, "", b"coz-join: parts: Points in g\n"),
    (&["c", "g", "f"], 14, "", b"coz-join: parts: Points in g\n"),
    (&["a", "e"], 14, "", b"coz-join: parts: Speedups in e\n"),
    (&["b", "m"], 14, "", b"coz-join: parts: Speedups in m\n"),
    (&["a", "m"], 14, "", b"coz-join: parts: Speedups in m\n"),
    (&["a", "h"], 14, "", b"coz-join: parts: Baseline in h\n"),
    (&["m", "s"], 14, "", b"coz-join: parts: Baseline in s\n"),
    (&["g", "i"], 14, "", b"coz-join: parts: Points in i\n"),
    (
        &["a", "a"],
        14,
        "",
        b"coz-join: parts: Twice one.s:1 in a\n",
    ),
    (
        &["b", "c"],
        14,
        "",
        b"coz-join: parts: Twice one.s:2 in c\n",
    ),
    (
        &["c", "b"],
        14,
        "",
        b"coz-join: parts: Twice one.s:2 in b\n",
    ),
    (&["t-b", "t-a"], 0, "t-all", b""),
    (&["t-a"], 0, "t-a", b""),
    (&["t-a", "b"], 14, "", b"coz-join: parts: Timing in b\n"),
    (&["a", "t-b"], 14, "", b"coz-join: parts: Timing in t-b\n"),
    (
        &["t-a", "t-e", "t-two"],
        14,
        "",
        b"coz-join: parts: Timing in t-two\n",
    ),
    (
        &["t-a", "t-e"],
        14,
        "",
        b"coz-join: parts: Speedups in t-e\n",
    ),
    (
        &["t-a", "t-a"],
        14,
        "",
        b"coz-join: parts: Twice one.s:1 in t-a\n",
    ),
    (
        &["a", "t-usual"],
        12,
        "",
        b"coz-join: profile: Head at 0 in t-usual\n",
    ),
];

/// The text of the profile of this name, and none if there is no such profile.
fn text_named<'a>(books: &'a [HeldFile], name: &str) -> &'a [u8] {
    match file_at(books, name) {
        Some(book) => &book.bytes,
        None => b"",
    }
}

#[test]
fn arguments_set_the_status_and_the_output(rt: HostRuntime) -> Result<(), Fail> {
    let books = all_books(rt.alloc())?;
    for (words, status, name, line) in &ROWS {
        let expected = (*status, text_named(&books, *name), *line);
        let mut files = Listed::new(&books, &[]);
        check_call(
            &rt,
            Program::Join,
            *words,
            &mut files,
            (WIDE, WIDE),
            expected,
        )?;
    }
    Ok(())
}

const NARROW: Room = Room {
    bytes: 100,
    fails: &[],
};

/// The first hundred bytes of the profile of all lines.
const BEGUN: &[u8] = b"coz-ticks\tversion=1\tbudget=100000000\tpoints=0\n\
experiment\tselected=one.s:1\tspeedup=0\tend=exited:0\ttim";

const WRITE: &[u8] = b"coz-join: write\n";

static FAULTS: [Fault; 12] = [
    (&["a", "b"], &[], (NARROW, WIDE), 6, BEGUN, WRITE),
    (&["a", "b"], &[], (SHUT, WIDE), 6, b"", WRITE),
    (
        &["a", "b"],
        &[0],
        (WIDE, WIDE),
        5,
        b"",
        b"coz-join: read: a\n",
    ),
    (
        &["a", "b"],
        &[1],
        (WIDE, WIDE),
        5,
        b"",
        b"coz-join: read: b\n",
    ),
    // Each file is read once.
    (&["a", "b"], &[2], (NARROW, WIDE), 6, BEGUN, WRITE),
    (
        &["a", "b", "c"],
        &[2],
        (WIDE, WIDE),
        5,
        b"",
        b"coz-join: read: c\n",
    ),
    (&["a", "a"], &[], (WIDE, SHUT), 14, b"", b""),
    (&["n"], &[], (WIDE, SHUT), 12, b"", b""),
    (&["-x"], &[], (WIDE, SHUT), 2, b"", b""),
    (&["absent"], &[], (WIDE, SHUT), 5, b"", b""),
    (&["a", "b"], &[1], (WIDE, SHUT), 5, b"", b""),
    (&["a", "b"], &[], (NARROW, SHUT), 6, BEGUN, b""),
];

/// The line of `a a`, by the texts that are put one after another.
static TWICE: [&[u8]; 8] = [
    b"coz-join",
    b": ",
    b"parts: ",
    b"Twice ",
    b"one.s:1",
    b" in ",
    b"a",
    b"\n",
];

#[test]
fn faults_of_files_and_sinks_set_the_status(rt: HostRuntime) -> Result<(), Fail> {
    check_faults(&rt, Program::Join, &all_books(rt.alloc())?, &FAULTS)
}

#[test]
fn the_status_is_kept_if_a_write_of_the_error_line_fails(rt: HostRuntime) -> Result<(), Fail> {
    let books = all_books(rt.alloc())?;
    check_failing_puts(&rt, Program::Join, &books, &["a", "a"], 14, &TWICE)
}

static LIMITS: [Limit; 1] = [(&["big"], 268_435_457, 8, b"", b"coz-join: long: big\n")];

#[test]
fn one_byte_over_the_limit_is_too_long(rt: HostRuntime) -> Result<(), Fail> {
    check_limits(&rt, Program::Join, b"", &LIMITS)
}
