//! The latencies that `latency` prints.
use crate::calls::{Row, check_rows, programs_of};
use crate::sources::{PC, STALL, Source, TWO, WAIT};
use std::test::Fail;

/// Programs of two harts and of one. The last one visits its one line again and again.
static SOURCES: [Source; 5] = [
    ("two.s", TWO),
    ("pc.s", PC),
    ("wait.s", WAIT),
    ("stall.s", STALL),
    ("spin.s", b"again: j again\n"),
];

const BOTH_HARTS: &[u8] =
    b"latency speedup 0 end exited:0 net 8700 arrivals 2 departures 2 stray 0 open 0 area 400 mean 200\nlatency speedup 50 end exited:0 net 8650 arrivals 2 departures 2 stray 0 open 0 area 300 mean 150\n";

const AT_ONCE: &[u8] =
    b"latency speedup 0 end exited:0 net 8700 arrivals 2 departures 2 stray 0 open 0 area 0 mean 0\n";

const LATER: &[u8] =
    b"latency speedup 0 end exited:0 net 8700 arrivals 2 departures 0 stray 2 open 2 area 8000 mean absent\n";

const NEVER: &[u8] =
    b"latency speedup 0 end exited:0 net 8700 arrivals 2 departures 0 stray 1 open 2 area 8400 mean absent\n";

const OF_LISTS: &[u8] =
    b"latency speedup 0 end exited:0 net 8700 arrivals 4 departures 4 stray 0 open 0 area 8200 mean 2050\nlatency speedup 50 end exited:0 net 8650 arrivals 4 departures 4 stray 0 open 0 area 8100 mean 2025\n";

const STRAY: &[u8] =
    b"latency speedup 0 end exited:0 net 488700 arrivals 50 departures 48 stray 2 open 2 area 416300 mean 8672\n";

const OPEN: &[u8] =
    b"latency speedup 0 end exited:0 net 488700 arrivals 100 departures 50 stray 0 open 50 area 12877500 mean 257550\nlatency speedup 95 end exited:0 net 398700 arrivals 100 departures 50 stray 0 open 50 area 10282500 mean 205650\n";

const SPENT: &[u8] =
    b"latency speedup 0 end spent net 153300 arrivals 17 departures 15 stray 0 open 2 area 175000 mean 11666\nlatency speedup 95 end spent net 138600 arrivals 17 departures 16 stray 0 open 1 area 139500 mean 8718\n";

const WAITING: &[u8] =
    b"latency speedup 0 end exited:0 net 43300 arrivals 1 departures 1 stray 0 open 0 area 34300 mean 34300\nlatency speedup 95 end exited:0 net 24300 arrivals 1 departures 1 stray 0 open 0 area 15300 mean 15300\n";

const STALLS: &[u8] =
    b"latency speedup 0 end stalled net 4500 arrivals 1 departures 1 stray 0 open 0 area 0 mean 0\n";

const FULL: &[u8] =
    b"latency speedup 0 end visits-full net 209715200 arrivals 1048576 departures 1048576 stray 0 open 0 area 0 mean 0\n";

/// `tools/check-tables` computes the same from the sources, by docs/FORMATS.md, without the code.
static LATENCIES: [Row; 16] = [
    (
        &[
            "latency",
            "two",
            "--line=two.s:6",
            "--arrive=two.s:5",
            "--depart=two.s:7",
            "--speedups=50",
        ],
        0,
        BOTH_HARTS,
        b"",
    ),
    (
        &[
            "latency",
            "two",
            "--line=two.s:6",
            "--arrive=two.s:5",
            "--depart=two.s:5",
            "--speedups=0",
        ],
        0,
        AT_ONCE,
        b"",
    ),
    (
        &[
            "latency",
            "two",
            "--line=two.s:6",
            "--arrive=two.s:7",
            "--depart=two.s:5",
            "--speedups=0",
        ],
        0,
        LATER,
        b"",
    ),
    (
        &[
            "latency",
            "two",
            "--line=two.s:6",
            "--arrive=two.s:5",
            "--depart=two.s:1",
            "--speedups=0",
        ],
        0,
        NEVER,
        b"",
    ),
    (
        &[
            "latency",
            "two",
            "--line=two.s:6",
            "--arrive=two.s:5,two.s:7",
            "--depart=two.s:6,two.s:8",
            "--speedups=50",
        ],
        0,
        OF_LISTS,
        b"",
    ),
    (
        &[
            "latency",
            "pc",
            "--line=pc.s:51",
            "--arrive=pc.s:64",
            "--depart=pc.s:13",
            "--speedups=0",
        ],
        0,
        STRAY,
        b"",
    ),
    (
        &[
            "latency",
            "pc",
            "--line=pc.s:62",
            "--arrive=pc.s:13,pc.s:64",
            "--depart=pc.s:64",
            "--speedups=95",
        ],
        0,
        OPEN,
        b"",
    ),
    (
        &[
            "latency",
            "pc",
            "--line=pc.s:62",
            "--arrive=pc.s:13",
            "--depart=pc.s:64",
            "--speedups=95,0,95",
            "--budget=500",
        ],
        1,
        SPENT,
        b"",
    ),
    (
        &[
            "latency",
            "wait",
            "--line=wait.s:17",
            "--arrive=wait.s:8",
            "--depart=wait.s:10",
            "--speedups=95",
        ],
        0,
        WAITING,
        b"",
    ),
    (
        &[
            "latency",
            "stall",
            "--line=stall.s:1",
            "--arrive=stall.s:5",
            "--depart=stall.s:5",
            "--speedups=0",
        ],
        1,
        STALLS,
        b"",
    ),
    (
        &[
            "latency",
            "spin",
            "--line=spin.s:1",
            "--arrive=spin.s:1",
            "--depart=spin.s:1",
            "--speedups=0",
            "--budget=2000000",
        ],
        1,
        FULL,
        b"",
    ),
    (
        &["latency", "two", "--line=two.s:6", "--arrive=two.s:5"],
        2,
        b"",
        b"coz: usage\n",
    ),
    (
        &[
            "latency",
            "two",
            "--line=two.s:9",
            "--arrive=two.s:10",
            "--depart=two.s:11",
        ],
        7,
        b"",
        b"coz: selection: no line two.s:9\n",
    ),
    (
        &[
            "latency",
            "two",
            "--line=two.s:1",
            "--arrive=two.s:10,two.s:9",
            "--depart=two.s:11",
        ],
        7,
        b"",
        b"coz: selection: no line two.s:10\n",
    ),
    (
        &[
            "latency",
            "two",
            "--line=two.s:1",
            "--arrive=two.s:1",
            "--depart=two.s:11",
        ],
        7,
        b"",
        b"coz: selection: no line two.s:11\n",
    ),
    (
        &[
            "latency",
            "absent",
            "--line=two.s:1",
            "--arrive=two.s:1",
            "--depart=two.s:1",
        ],
        5,
        b"",
        b"coz: read: absent\n",
    ),
];

#[test]
fn latencies_are_those_of_the_visits(rt: HostRuntime) -> Result<(), Fail> {
    let programs = programs_of(&rt, &SOURCES)?;
    check_rows(&rt, &programs, &LATENCIES)
}
