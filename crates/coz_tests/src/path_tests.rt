//! The critical paths that `path` prints, and its faults.
use crate::calls::{Row, Setup, TEN, WIDE, check_call, check_rows, over, programs_of};
use crate::checks::Output;
use crate::sources::{CLOCK, DOZE, JOIN, NAP, ONE, STALL, Source, TWO, WAIT};
use std::test::Fail;

/// Programs of one hart and of two, which wait, are woken, sleep, trap or fill the output.
static SOURCES: [Source; 10] = [
    ("one.s", ONE),
    ("two.s", TWO),
    ("wait.s", WAIT),
    ("join.s", JOIN),
    ("stall.s", STALL),
    ("nap.s", NAP),
    ("doze.s", DOZE),
    ("clock.s", CLOCK),
    ("jz.s", b"    jalr x0, 0(x0)\n"),
    (
        "fill.s",
        b"again: li a0, 1\nla a1, text\nli a2, 1024\nli a7, 64\necall\n\
        j again\n\
        .data\ntext: .zero 1024\n",
    ),
];

/// `tools/check-tables` computes the same from the sources, by docs/FORMATS.md, without the code.
static PATHS: [Row; 10] = [
    (
        &["path", "wait"],
        0,
        b"end exited:0\nnet 43300\nretired 57\nsegments 3\nsegment 0 from 0 to 4300 by start\nsegment 1 from 4300 to 39100 by clone\nsegment 0 from 39100 to 43300 by wake\nshare wait.s:17 20000\nshare wait.s:3 4000\nshare wait.s:12 4000\nshare wait.s:14 4000\nshare wait.s:15 4000\nshare wait.s:24 4000\nshare wait.s:18 1000\nshare wait.s:19 1000\nshare wait.s:1 200\nshare wait.s:20 200\nshare wait.s:2 100\nshare wait.s:4 100\nshare wait.s:10 100\nshare wait.s:11 100\nshare wait.s:13 100\nshare wait.s:16 100\nshare wait.s:21 100\nshare wait.s:22 100\nshare wait.s:23 100\n",
        b"",
    ),
    (
        &["path", "join"],
        0,
        b"end exited:0\nnet 17000\nretired 20\nsegments 3\nsegment 0 from 0 to 4500 by start\nsegment 1 from 4500 to 12800 by clone\nsegment 0 from 12800 to 17000 by wake\nshare join.s:4 4000\nshare join.s:13 4000\nshare join.s:15 4000\nshare join.s:17 4000\nshare join.s:1 200\nshare join.s:2 200\nshare join.s:3 100\nshare join.s:5 100\nshare join.s:11 100\nshare join.s:12 100\nshare join.s:14 100\nshare join.s:16 100\n",
        b"",
    ),
    (
        &["path", "stall"],
        1,
        b"end stalled\nnet 4500\nretired 6\nsegments 1\nsegment 0 from 0 to 4500 by start\nshare stall.s:5 4000\nshare stall.s:1 200\nshare stall.s:2 100\nshare stall.s:3 100\nshare stall.s:4 100\n",
        b"",
    ),
    (
        &["path", "nap"],
        0,
        b"end exited:0\nnet 13600\nretired 8\nsegments 1\nsegment 0 from 0 to 13600 by start\nshare nap.s:4 4000\nshare nap.s:7 4000\nshare nap.s:1 200\nshare nap.s:2 100\nshare nap.s:3 100\nshare nap.s:5 100\nshare nap.s:6 100\nsleep 5000\n",
        b"",
    ),
    (
        &["path", "two"],
        0,
        b"end exited:0\nnet 8700\nretired 13\nsegments 2\nsegment 0 from 0 to 4400 by start\nsegment 1 from 4400 to 8700 by clone\nshare two.s:4 4000\nshare two.s:8 4000\nshare two.s:1 200\nshare two.s:2 100\nshare two.s:3 100\nshare two.s:5 100\nshare two.s:6 100\nshare two.s:7 100\n",
        b"",
    ),
    (
        &["path", "doze"],
        0,
        b"end exited:0\nnet 17800\nretired 24\nsegments 1\nsegment 0 from 0 to 17800 by start\nshare doze.s:3 4000\nshare doze.s:7 4000\nshare doze.s:9 4000\nshare doze.s:1 200\nshare doze.s:5 200\nshare doze.s:2 100\nshare doze.s:4 100\nshare doze.s:6 100\nshare doze.s:8 100\nsleep 5000\n",
        b"",
    ),
    (
        &["path", "clock"],
        1,
        b"end clock\nnet 4400\nretired 5\nsegments 1\nsegment 0 from 0 to 4400 by start\nshare clock.s:4 4000\nshare clock.s:1 200\nshare clock.s:2 100\nshare clock.s:3 100\n",
        b"",
    ),
    (
        &["path", "jz"],
        1,
        b"end trapped:fetch:0:0x0\nnet 300\nretired 2\nsegments 1\nsegment 0 from 0 to 300 by start\nshare jz.s:1 200\nshare none 100\n",
        b"",
    ),
    (
        &["path", "wait", "--budget", "20"],
        1,
        b"end spent\nnet 16800\nretired 20\nsegments 2\nsegment 0 from 0 to 4300 by start\nsegment 1 from 4300 to 16800 by clone\nshare wait.s:3 4000\nshare wait.s:14 4000\nshare wait.s:15 4000\nshare wait.s:17 4000\nshare wait.s:1 200\nshare wait.s:2 100\nshare wait.s:4 100\nshare wait.s:13 100\nshare wait.s:16 100\nshare wait.s:18 100\nshare wait.s:19 100\n",
        b"",
    ),
    (
        &["path", "fill"],
        1,
        b"end output-full\nnet 19251000\nretired 28671\nsegments 1\nsegment 0 from 0 to 19251000 by start\nshare fill.s:5 16384000\nshare fill.s:2 819200\nshare fill.s:6 819000\nshare fill.s:1 409600\nshare fill.s:3 409600\nshare fill.s:4 409600\n",
        b"",
    ),
];

/// Arguments for which there is no path.
/// By hand, from docs/FORMATS.md, Commands and Exit statuses.
static REJECTED: [Row; 9] = [
    (&["path", "one", "--budget", "0"], 2, b"", b"coz: usage\n"),
    (
        &["path", "one", "--budget", "4000001"],
        2,
        b"",
        b"coz: usage\n",
    ),
    (
        &["path", "one", "--line", "one.s:1"],
        2,
        b"",
        b"coz: usage\n",
    ),
    (
        &["path", "one", "--progress", "one.s:1"],
        2,
        b"",
        b"coz: usage\n",
    ),
    (&["path", "one", "--workers", "1"], 2, b"", b"coz: usage\n"),
    (&["path"], 2, b"", b"coz: usage\n"),
    (&["path", "one", "two"], 2, b"", b"coz: usage\n"),
    (&["path", "absent"], 5, b"", b"coz: read: absent\n"),
    (
        &["path", "one", "--input", "absent"],
        5,
        b"",
        b"coz: read: absent\n",
    ),
];

#[test]
fn paths_are_printed(rt: HostRuntime) -> Result<(), Fail> {
    let programs = programs_of(&rt, &SOURCES)?;
    check_rows(&rt, &programs, &PATHS)?;
    check_rows(&rt, &programs, &REJECTED)
}

#[test]
fn a_path_is_cut_where_the_output_is_full(rt: HostRuntime) -> Result<(), Fail> {
    let programs = programs_of(&rt, &[("one.s", ONE)])?;
    let setup = Setup {
        rooms: (TEN, WIDE),
        ..over(&programs)
    };
    let expected = (6, Output::Whole(b"end exited"), b"coz: write\n".as_slice());
    check_call(&rt, &["path", "one"], &setup, expected)
}
