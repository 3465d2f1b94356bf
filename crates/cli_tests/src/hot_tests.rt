//! Lines by cost over files in memory.
use crate::calls::{ONE_SOURCE, assembled};
use crate::hot_files::programs;
use crate::programs::{
    Fault, Limit, Program, Row, check_failing_puts, check_faults, check_limits, check_rows,
};
use crate::sinks::{SHUT, TEN, WIDE};
use std::test::Fail;

const USAGE: &[u8] = b"coz-hot: usage\n";

const ONE: &[u8] = b"line one.s:3 starts 1 cost 4000 share 9523\n\
line one.s:1 starts 1 cost 100 share 238\n\
line one.s:2 starts 1 cost 100 share 238\n";

/// Words that ask for nothing.
/// By hand, from docs/FORMATS.md, Lines by cost.
static WRONG: [Row; 17] = [
    (&[], 2, b"", USAGE),
    (&[""], 2, b"", USAGE),
    (&["--top", "1"], 2, b"", USAGE),
    (&["--", "--top"], 2, b"", USAGE),
    (&["one", "two"], 2, b"", USAGE),
    (&["run", "one"], 2, b"", USAGE),
    (&["one", "--top", "0"], 2, b"", USAGE),
    (&["one", "--top", "x"], 2, b"", USAGE),
    (&["one", "--top="], 2, b"", USAGE),
    (&["one", "--top", "18446744073709551616"], 2, b"", USAGE),
    (&["one", "--top"], 2, b"", USAGE),
    (&["one", "--top", "--names"], 2, b"", USAGE),
    (&["one", "--top", "1", "--top=1"], 2, b"", USAGE),
    (&["one", "--names", "--names"], 2, b"", USAGE),
    (&["one", "--line", "one.s:1"], 2, b"", USAGE),
    (&["one", "--speedup", "5"], 2, b"", USAGE),
    (&["one", "--budget", "0"], 2, b"", USAGE),
];

#[test]
fn invalid_arguments_are_rejected(rt: HostRuntime) -> Result<(), Fail> {
    check_rows(&rt, Program::Hot, &programs(&rt)?, &WRONG)
}

/// An instruction takes 100 ticks, a jump 200, and a call 4000. In `two` lines 5 to 8 are executed
/// by two threads, and line 1 is two instructions.
/// `tools/check-tables` computes the same from the sources, by docs/FORMATS.md, without the code.
static PRINTED: [Row; 16] = [
    (&["one"], 0, ONE, b""),
    (&["--", "one"], 0, ONE, b""),
    (&["one", "--input", "data"], 0, ONE, b""),
    (
        &["--top", "18446744073709551615", "one", "--budget=3"],
        0,
        ONE,
        b"",
    ),
    (
        &["one", "--top", "1"],
        0,
        b"line one.s:3 starts 1 cost 4000 share 9523\n",
        b"",
    ),
    (&["one", "--names"], 0, b"one.s:3,one.s:1,one.s:2\n", b""),
    (&["--names", "--top=2", "one"], 0, b"one.s:3,one.s:1\n", b""),
    (
        &["two"],
        0,
        b"line two.s:8 starts 2 cost 8000 share 6153\n\
line two.s:4 starts 1 cost 4000 share 3076\n\
line two.s:1 starts 2 cost 200 share 153\n\
line two.s:5 starts 2 cost 200 share 153\n\
line two.s:6 starts 2 cost 200 share 153\n\
line two.s:7 starts 2 cost 200 share 153\n\
line two.s:2 starts 1 cost 100 share 76\n\
line two.s:3 starts 1 cost 100 share 76\n",
        b"",
    ),
    (
        &["two", "--top", "2", "--progress", "two.s:8,two.s:6"],
        0,
        b"visit 0 hart 0 net 4600\n\
visit 0 hart 1 net 4600\n\
visit 1 hart 0 net 8700\n\
visit 1 hart 1 net 8700\n\
line two.s:8 starts 2 cost 8000 share 6153\n\
line two.s:4 starts 1 cost 4000 share 3076\n",
        b"",
    ),
    (
        &["two", "--names", "--progress", "two.s:6", "--top", "3"],
        0,
        b"two.s:8,two.s:4,two.s:1\n",
        b"",
    ),
    // The input has four bytes.
    (
        &["reads", "--input", "data", "--top", "3", "--budget", "100"],
        0,
        b"line reads.s:5 starts 1 cost 4000 share 4301\n\
line reads.s:9 starts 1 cost 4000 share 4301\n\
line reads.s:6 starts 4 cost 400 share 430\n",
        b"",
    ),
    (
        &["one", "--budget", "2"],
        1,
        b"line one.s:1 starts 1 cost 100 share 5000\n\
line one.s:2 starts 1 cost 100 share 5000\n",
        b"",
    ),
    (
        &["spin", "--budget", "1000"],
        1,
        b"line spin.s:1 starts 1000 cost 200000 share 10000\n",
        b"",
    ),
    (
        &["spin", "--budget", "1000", "--names"],
        1,
        b"spin.s:1\n",
        b"",
    ),
    (
        &["bare", "--top", "1"],
        0,
        b"none cost 4200 share 10000\n",
        b"",
    ),
    (&["bare", "--names"], 0, b"\n", b""),
];

#[test]
fn lines_are_sorted_by_falling_cost(rt: HostRuntime) -> Result<(), Fail> {
    check_rows(&rt, Program::Hot, &programs(&rt)?, &PRINTED)
}

/// If a row has two faults, the first is reported.
/// By hand, as the other tables below: docs/FORMATS.md, Lines by cost and Exit statuses.
static FAULTY: [Row; 8] = [
    (
        &["absent", "--input", "gone"],
        5,
        b"",
        b"coz-hot: read: absent\n",
    ),
    (
        &["compressed", "--input", "absent"],
        5,
        b"",
        b"coz-hot: read: absent\n",
    ),
    (
        &["compressed", "--progress", "one.s:9"],
        3,
        b"",
        b"coz-hot: program: Compressed at 48\n",
    ),
    (
        &["short", "--progress", "one.s:9"],
        4,
        b"",
        b"coz-hot: lines: Short at 6\n",
    ),
    (
        &["one", "--progress", "one.s:1,one.s:9,one.s:8"],
        7,
        b"",
        b"coz-hot: selection: no line one.s:9\n",
    ),
    (
        &["bare", "--progress", "one.s:1", "--budget", "1"],
        7,
        b"",
        b"coz-hot: selection: no line one.s:1\n",
    ),
    (&["absent"], 5, b"", b"coz-hot: read: absent\n"),
    (
        &["one", "--input", "absent"],
        5,
        b"",
        b"coz-hot: read: absent\n",
    ),
];

#[test]
fn the_first_fault_is_reported(rt: HostRuntime) -> Result<(), Fail> {
    check_rows(&rt, Program::Hot, &programs(&rt)?, &FAULTY)
}

const WRITE: &[u8] = b"coz-hot: write\n";

const WITH_INPUT: &[&str] = &["one", "--input", "data"];

static FAULTS: [Fault; 15] = [
    (
        WITH_INPUT,
        &[0],
        (WIDE, WIDE),
        5,
        b"",
        b"coz-hot: read: one\n",
    ),
    (
        WITH_INPUT,
        &[1],
        (WIDE, WIDE),
        5,
        b"",
        b"coz-hot: read: data\n",
    ),
    // Each file is read once.
    (WITH_INPUT, &[2], (WIDE, WIDE), 0, ONE, b""),
    (&["one"], &[1], (WIDE, WIDE), 0, ONE, b""),
    (&["one"], &[], (TEN, WIDE), 6, b"line one.s", WRITE),
    (
        &["one", "--names"],
        &[],
        (TEN, WIDE),
        6,
        b"one.s:3,on",
        WRITE,
    ),
    (
        &["two", "--progress", "two.s:8"],
        &[],
        (TEN, WIDE),
        6,
        b"visit 0 ha",
        WRITE,
    ),
    (
        &["spin", "--budget", "9"],
        &[],
        (TEN, WIDE),
        6,
        b"line spin.",
        WRITE,
    ),
    (&["one"], &[], (SHUT, WIDE), 6, b"", WRITE),
    (&["one"], &[], (TEN, SHUT), 6, b"line one.s", b""),
    (&["one", "--top"], &[], (WIDE, SHUT), 2, b"", b""),
    (&["compressed"], &[], (WIDE, SHUT), 3, b"", b""),
    (&["short"], &[], (WIDE, SHUT), 4, b"", b""),
    (WITH_INPUT, &[1], (WIDE, SHUT), 5, b"", b""),
    (
        &["one", "--progress", "one.s:9"],
        &[],
        (WIDE, SHUT),
        7,
        b"",
        b"",
    ),
];

#[test]
fn faults_of_files_and_sinks_set_the_status(rt: HostRuntime) -> Result<(), Fail> {
    check_faults(&rt, Program::Hot, &programs(&rt)?, &FAULTS)
}

/// The line of `absent`, by the texts that are put one after another.
static ABSENT: [&[u8]; 5] = [b"coz-hot", b": ", b"read: ", b"absent", b"\n"];

#[test]
fn the_status_is_kept_if_a_write_of_the_error_line_fails(rt: HostRuntime) -> Result<(), Fail> {
    check_failing_puts(&rt, Program::Hot, &[], &["absent"], 5, &ABSENT)
}

const LONG: &[u8] = b"coz-hot: long: big\n";

static LIMITS: [Limit; 4] = [
    (
        &["big"],
        33_554_432,
        3,
        b"",
        b"coz-hot: program: NotElf at 0\n",
    ),
    (&["big"], 33_554_433, 8, b"", LONG),
    (&["one", "--input=big"], 16_777_216, 0, ONE, b""),
    (&["one", "--input=big"], 16_777_217, 8, b"", LONG),
];

#[test]
fn one_byte_over_the_limit_is_too_long(rt: HostRuntime) -> Result<(), Fail> {
    let one = assembled(&rt, "one.s", ONE_SOURCE)?;
    check_limits(&rt, Program::Hot, &one, &LIMITS)
}
