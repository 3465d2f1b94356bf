//! Programs by function over files in memory.
use crate::calls::printed;
use crate::files::{Change, Listed, add_all_changed, files_of};
use crate::programs::{
    Fault, Limit, Program, Row, check_answer, check_failing_puts, check_faults, check_limits,
    check_rows, status_of,
};
use crate::sinks::{SHUT, Sinks, TEN, WIDE, two_sinks};
use coz_files::HeldFile;
use std::alloc::{AllocError, Global};
use std::process::Abort;
use std::test::Fail;
use std::thread::Threads;

/// A program of eight instructions from 0x10078 on: the function `main` of four, which has the
/// lines 1 to 4 of `a/m.c`, and the function `work` of four, which has the lines 3 to 6 of `b/m.c`.
/// readelf and llvm-dwarfdump print these functions and lines.
static SMALL: &[u8] =
    b"\x7FELF\x02\x01\x01\0\0\0\0\0\0\0\0\0\x02\0\xF3\0\x01\0\0\0x\0\x01\0\0\0\0\0@\0\0\0\0\0\0\0\
\x90\x01\0\0\0\0\0\0\0\0\0\0@\08\0\x01\0@\0\x05\0\x04\0\x01\0\0\0\x05\0\0\0\0\0\0\0\0\0\0\0\
\0\0\x01\0\0\0\0\0\0\0\x01\0\0\0\0\0\x98\0\0\0\0\0\0\0\x98\0\0\0\0\0\0\0\0\x10\0\0\0\0\0\0\
\x13\x05\0\0\x93\x08\xD0\x05s\0\0\0\x13\0\0\0\x13\0\0\0\x13\0\0\0\x13\0\0\0\x13\0\0\0\0\0\0\
\0\0\0\0\0\0\0\0\0\0\0\0\0\0\0\0\0\0\0\0\0\x01\0\0\0\x12\0\x01\0x\0\x01\0\0\0\0\0\x10\0\0\0\
\0\0\0\0\x06\0\0\0\x12\0\x01\0\x88\0\x01\0\0\0\0\0\x10\0\0\0\0\0\0\0\0main\0work\0\0\0\0\0\0\
r\0\0\0\x04\0&\0\0\0\x01\x01\x01\xFB\x0E\x0D\0\x01\x01\x01\x01\0\0\0\x01\0\0\x01\0a/m.c\0\0\
\0\0b/m.c\0\0\0\0\0\0\x09\x02x\0\x01\0\0\0\0\0\x04\x01\x01\x02\x04\x03\x01\x01\x02\x04\x03\
\x01\x01\x02\x04\x03\x01\x01\x02\x04\0\x01\x01\0\x09\x02\x88\0\x01\0\0\0\0\0\x04\x02\x03\x02\
\x01\x02\x04\x03\x01\x01\x02\x04\x03\x01\x01\x02\x04\x03\x01\x01\x02\x04\0\x01\x01\0\0\0.sym\
tab\0.strtab\0.debug_line\0.shstrtab\0\0\0\0\0\0\0\0\0\0\0\0\0\0\0\0\0\0\0\0\0\0\0\0\0\0\0\0\
\0\0\0\0\0\0\0\0\0\0\0\0\0\0\0\0\0\0\0\0\0\0\0\0\0\0\0\0\0\0\0\0\0\0\0\0\0\0\x01\0\0\0\x02\0\
\0\0\0\0\0\0\0\0\0\0\0\0\0\0\0\0\0\0\x98\0\0\0\0\0\0\0H\0\0\0\0\0\0\0\x02\0\0\0\0\0\0\0\x01\
\0\0\0\0\0\0\0\x18\0\0\0\0\0\0\0\x09\0\0\0\x03\0\0\0\0\0\0\0\0\0\0\0\0\0\0\0\0\0\0\0\xE0\0\0\
\0\0\0\0\0\x0B\0\0\0\0\0\0\0\0\0\0\0\0\0\0\0\x01\0\0\0\0\0\0\0\0\0\0\0\0\0\0\0\x11\0\0\0\x01\
\0\0\0\0\0\0\0\0\0\0\0\0\0\0\0\0\0\0\0\xF0\0\0\0\0\0\0\0v\0\0\0\0\0\0\0\0\0\0\0\0\0\0\0\x01\
\0\0\0\0\0\0\0\0\0\0\0\0\0\0\0\x1D\0\0\0\x03\0\0\0\0\0\0\0\0\0\0\0\0\0\0\0\0\0\0\0h\x01\0\0\
\0\0\0\0'\0\0\0\0\0\0\0\0\0\0\0\0\0\0\0\x01\0\0\0\0\0\0\0\0\0\0\0\0\0\0\0";

/// Programs that differ from it in a few bytes, each with its offset.
static CHANGED: [Change; 8] = [
    // The header says that there are compressed instructions.
    ("compressed", &[(48, 1)]),
    // The line table ends within the header of its unit.
    ("short", &[(624, 9)]),
    // There are no sections, and so no functions.
    ("bare", &[(40, 0), (41, 0), (60, 0), (62, 0)]),
    // The section of the line table has another name.
    ("lineless", &[(378, b'x')]),
    // The section of the names has another name.
    ("nameless", &[(369, b'x')]),
    // `main` is an object, and `work` ends after the executable area.
    ("objects", &[(180, 0x11), (218, 1)]),
    // All of the file is loaded.
    ("loaded", &[(96, 0xD0), (97, 2), (104, 0xD0), (105, 2)]),
    // The path of `main` is `a,m.c`.
    ("comma", &[(270, b',')]),
];

/// The programs.
fn programs(alloc: Global) -> Result<Vec<HeldFile>, AllocError> {
    let mut files = files_of(alloc, &[("small", SMALL)])?;
    add_all_changed(alloc, &mut files, SMALL, &CHANGED)?;
    Ok(files)
}

/// The lines of the program that was written, if one was.
fn lines_of<R: Threads + Sync + AllocGlobal>(rt: &R, file: &[u8]) -> Result<Vec<u8>, AllocError> {
    if file.is_empty() {
        return Ok(Vec::new(rt.alloc()));
    }
    printed(rt, &["lines", "written"], &[("written", file)])
}

const USAGE: &[u8] = b"coz-functions: usage\n";

fn check_lines_in<R: Threads + Sync + AllocGlobal + Abort>(
    rt: &R,
    files: &[HeldFile],
    row: &Row,
    sinks: &mut Sinks,
) -> Result<(), Fail> {
    let mut files = Listed::new(files, &[]);
    let status = status_of(rt, Program::Functions, row.0, &mut files, sinks)?;
    let lines = lines_of(rt, sinks.out.held())?;
    check_answer(
        rt,
        (status, &lines, sinks.err.held()),
        (row.1, row.2, row.3),
    )
}

/// Calls the program with the arguments of a row, and compares the lines of the file that it prints.
pub(crate) fn check_lines<R: Threads + Sync + AllocGlobal + Abort>(
    rt: &R,
    files: &[HeldFile],
    row: &Row,
) -> Result<(), Fail> {
    let mut sinks = two_sinks(rt.alloc(), (WIDE, WIDE))?;
    let checked = check_lines_in(rt, files, row, &mut sinks);
    // By one call, since a drop in place is proved part by part.
    drop(sinks);
    checked
}

/// Words that ask for nothing.
/// By hand, as all tables of this module: docs/FORMATS.md, Programs by function.
static WRONG: [Row; 19] = [
    (&[], 2, b"", USAGE),
    (&[""], 2, b"", USAGE),
    (&["-small"], 2, b"", USAGE),
    (&["small", "small"], 2, b"", USAGE),
    (&["--keep", "m.c:1"], 2, b"", USAGE),
    (&["small", "--keep"], 2, b"", USAGE),
    (&["small", "--keep", "m.c"], 2, b"", USAGE),
    (&["small", "--keep="], 2, b"", USAGE),
    (&["small", "--keep", "-m.c:1"], 2, b"", USAGE),
    (&["small", "--keep=m.c:1", "--keep", "m.c:1"], 2, b"", USAGE),
    (&["small", "--regions"], 2, b"", USAGE),
    (&["small", "--regions", "m.c:1"], 2, b"", USAGE),
    (&["small", "--regions", "m.c:0-1"], 2, b"", USAGE),
    (&["small", "--regions", "m.c:1-0"], 2, b"", USAGE),
    (&["small", "--regions", "m.c:1-4294967296"], 2, b"", USAGE),
    (&["small", "--regions", "m.c:1-2,"], 2, b"", USAGE),
    (&["small", "--regions", "m.c:1-2-3"], 2, b"", USAGE),
    (
        &["small", "--regions=m.c:1-2", "--regions=m.c:3-4"],
        2,
        b"",
        USAGE,
    ),
    (&["small", "--lines", "m.c:1"], 2, b"", USAGE),
];

#[test]
fn invalid_arguments_are_rejected(rt: HostRuntime) -> Result<(), Fail> {
    check_rows(&rt, Program::Functions, &programs(rt.alloc())?, &WRONG)
}

const WHOLE: &[u8] = b"skipped 0\na/m.c/main:1\t0x10078\nb/m.c/work:3\t0x10088\n";

/// The third entry of a row is the lines of the file that is printed.
static WRITTEN: [Row; 13] = [
    (&["small"], 0, WHOLE, b""),
    (&["--", "small"], 0, WHOLE, b""),
    (
        &["--keep", "m.c:4", "small"],
        0,
        b"skipped 0\na/m.c:4\t0x10084\na/m.c/main:1\t0x10078\nb/m.c/work:3\t0x10088\n",
        b"",
    ),
    // A region of one line is that line.
    (
        &["small", "--regions", "m.c:4-4"],
        0,
        b"skipped 0\na/m.c:4\t0x10084\na/m.c/main:1\t0x10078\nb/m.c/work:3\t0x10088\n",
        b"",
    ),
    // `a/m.c` has no such line.
    (
        &["small", "--regions=m.c:5-9"],
        0,
        b"skipped 0\na/m.c/main:1\t0x10078\nb/m.c:5\t0x10090\nb/m.c/work:3\t0x10088\n",
        b"",
    ),
    // No line has its first number.
    (
        &["--regions", "b/m.c:1-4", "small"],
        0,
        b"skipped 0\na/m.c/main:1\t0x10078\nb/m.c:1\t0x10088\nb/m.c/work:3\t0x10090\n",
        b"",
    ),
    // Only `b/m.c` ends with the path, and none of its lines has the first number.
    (
        &["comma", "--regions", "m.c:1-4"],
        0,
        b"skipped 0\na%2Cm.c/main:1\t0x10078\nb/m.c:1\t0x10088\nb/m.c/work:3\t0x10090\n",
        b"",
    ),
    // Of two regions that overlap, the first counts.
    (
        &["small", "--regions", "m.c:2-3,m.c:1-9"],
        0,
        b"skipped 0\na/m.c:1\t0x10078,0x10084\na/m.c:2\t0x1007c\nb/m.c/work:3\t0x10088\n",
        b"",
    ),
    (
        &["small", "--regions", "m.c:1-9,m.c:2-3"],
        0,
        b"skipped 0\na/m.c:1\t0x10078\nb/m.c/work:3\t0x10088\n",
        b"",
    ),
    // A line that is kept is in no region.
    (
        &["--regions", "a/m.c:2-3", "small", "--keep", "m.c:3"],
        0,
        b"skipped 0\na/m.c:2\t0x1007c\na/m.c:3\t0x10080\na/m.c/main:1\t0x10078,0x10084\nb/m.c/work:3\t0x10088\n",
        b"",
    ),
    (
        &["small", "--keep=m.c:3", "--regions=b/m.c:4-5,a/m.c:2-4"],
        0,
        b"skipped 0\na/m.c:2\t0x1007c,0x10084\na/m.c:3\t0x10080\na/m.c/main:1\t0x10078\nb/m.c:4\t0x1008c\nb/m.c/work:3\t0x10088,0x10094\n",
        b"",
    ),
    (
        &["objects", "--regions", "m.c:1-1"],
        14,
        b"",
        b"coz-functions: no functions\n",
    ),
    (&["nameless"], 14, b"", b"coz-functions: no functions\n"),
];

#[test]
fn lines_are_kept_before_regions_and_functions(rt: HostRuntime) -> Result<(), Fail> {
    let programs = programs(rt.alloc())?;
    for row in &WRITTEN {
        check_lines(&rt, &programs, row)?;
    }
    Ok(())
}

/// If a row has two faults, the first one is reported.
static FAULTY: [Row; 10] = [
    (&["absent"], 5, b"", b"coz-functions: read: absent\n"),
    (
        &["compressed", "--keep", "m.c:9"],
        3,
        b"",
        b"coz-functions: program: Compressed at 48\n",
    ),
    (
        &["short", "--regions", "m.c:8-9"],
        4,
        b"",
        b"coz-functions: lines: Short at 0\n",
    ),
    (
        &["bare", "--keep", "m.c:1"],
        7,
        b"",
        b"coz-functions: selection: no line m.c:1\n",
    ),
    (
        &["small", "--regions", "m.c:8-9", "--keep", "m.c:1,m.c:9"],
        7,
        b"",
        b"coz-functions: selection: no line m.c:9\n",
    ),
    (
        &["bare", "--regions", "m.c:8-9"],
        7,
        b"",
        b"coz-functions: selection: no line m.c:8-9\n",
    ),
    (
        &["small", "--regions", "m.c:1-2,m.c:4-3,m.c:8-9"],
        7,
        b"",
        b"coz-functions: selection: no line m.c:4-3\n",
    ),
    (&["bare"], 14, b"", b"coz-functions: no functions\n"),
    (&["lineless"], 14, b"", b"coz-functions: no lines\n"),
    (
        &["loaded"],
        14,
        b"",
        b"coz-functions: section headers are loaded\n",
    ),
];

#[test]
fn the_first_fault_is_reported(rt: HostRuntime) -> Result<(), Fail> {
    check_rows(&rt, Program::Functions, &programs(rt.alloc())?, &FAULTY)
}

const WRITE: &[u8] = b"coz-functions: write\n";

/// The first ten bytes of a program.
const MAGIC: &[u8] = b"\x7FELF\x02\x01\x01\0\0\0";

static FAULTS: [Fault; 7] = [
    (
        &["small"],
        &[0],
        (WIDE, WIDE),
        5,
        b"",
        b"coz-functions: read: small\n",
    ),
    // The file is read once.
    (&["small"], &[1], (TEN, WIDE), 6, MAGIC, WRITE),
    (&["small"], &[], (TEN, WIDE), 6, MAGIC, WRITE),
    (&["small"], &[], (SHUT, WIDE), 6, b"", WRITE),
    (&["small"], &[], (TEN, SHUT), 6, MAGIC, b""),
    (
        &["small", "--regions", "m.c:8-9"],
        &[],
        (WIDE, SHUT),
        7,
        b"",
        b"",
    ),
    (&["bare"], &[], (WIDE, SHUT), 14, b"", b""),
];

#[test]
fn faults_of_files_and_sinks_set_the_status(rt: HostRuntime) -> Result<(), Fail> {
    check_faults(&rt, Program::Functions, &programs(rt.alloc())?, &FAULTS)
}

#[test]
fn the_printed_file_ends_with_its_line_unit(rt: HostRuntime) -> Result<(), Fail> {
    let programs = programs(rt.alloc())?;
    let mut files = Listed::new(&programs, &[]);
    let mut sinks = two_sinks(rt.alloc(), (WIDE, WIDE))?;
    let status = status_of(&rt, Program::Functions, &["small"], &mut files, &mut sinks)?;
    assert_eq!(rt; (status, sinks.out.held().len()), (0, 854));
    Ok(())
}

/// The line of `bare`, by the texts that are put one after another.
static BARE: [&[u8]; 4] = [b"coz-functions", b": ", b"no functions", b"\n"];

#[test]
fn the_status_is_kept_if_a_write_of_the_error_line_fails(rt: HostRuntime) -> Result<(), Fail> {
    let programs = programs(rt.alloc())?;
    check_failing_puts(&rt, Program::Functions, &programs, &["bare"], 14, &BARE)
}

static LIMITS: [Limit; 2] = [
    (
        &["big"],
        33_554_432,
        3,
        b"",
        b"coz-functions: program: NotElf at 0\n",
    ),
    (&["big"], 33_554_433, 8, b"", b"coz-functions: long: big\n"),
];

#[test]
fn one_byte_over_the_limit_is_too_long(rt: HostRuntime) -> Result<(), Fail> {
    check_limits(&rt, Program::Functions, b"", &LIMITS)
}
