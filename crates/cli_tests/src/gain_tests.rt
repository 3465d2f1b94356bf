//! Profiles on machines of the timing model, over files in memory.
use crate::hot_files::programs;
use crate::programs::{Fault, Program, Row, check_faults, check_rows};
use crate::sinks::{SHUT, WIDE};
use std::test::Fail;

const USAGE: &[u8] = b"coz: usage\n";

/// Words that ask for nothing.
/// By hand, from docs/FORMATS.md, Profiles on other machines.
static WRONG: [Row; 13] = [
    (&[], 2, b"", USAGE),
    (&["one", "two"], 2, b"", USAGE),
    (&["one", "--cores"], 2, b"", USAGE),
    (&["one", "--cores", "0"], 2, b"", USAGE),
    (&["one", "--cores=257"], 2, b"", USAGE),
    (&["one", "--cores", "1", "--cores=1"], 2, b"", USAGE),
    (&["one", "--slice", "1000000001"], 2, b"", USAGE),
    (&["one", "--costs", "load"], 2, b"", USAGE),
    (&["one", "--costs", "load=10001"], 2, b"", USAGE),
    (&["one", "--costs", "load=1,load=1"], 2, b"", USAGE),
    (&["one", "--charge", "first"], 2, b"", USAGE),
    (&["one", "--seed", "18446744073709551616"], 2, b"", USAGE),
    (&["one", "--budget", "10000000001"], 2, b"", USAGE),
];

#[test]
fn invalid_arguments_are_rejected(rt: HostRuntime) -> Result<(), Fail> {
    check_rows(&rt, Program::Gain, &programs(&rt)?, &WRONG)
}

/// The profile of the one run of `one`, which takes 4,200 ticks.
const USUAL: &[u8] = b"coz-ticks\tversion=1\tbudget=100000000\tpoints=1\n\
point\tindex=0\tname=one.s:3\n\
experiment\tselected=one.s:1\tspeedup=0\tend=exited:0\ttime=4200\tdelay=0\tretired=3\tstarts=1\n\
output\tlength=0\tsha256=e3b0c44298fc1c149afbf4c8996fb92427ae41e4649b934ca495991b7852b855\n\
throughput-point\tindex=0\tdelta=1\n\
visits\tsha256=a6154681ac3f49d5aa02c9d59a6f7919a1894811055c7460e871f7250cdd1d43\n";

/// The same on one core, with the line of the machine.
const ONE_CORE: &[u8] = b"coz-timing\tversion=1\tcores=1\tslice=100000\t\
costs=1,2,3,3,8,20,40\tcharge=none\tseed=0\n\
coz-ticks\tversion=1\tbudget=100000000\tpoints=1\n\
point\tindex=0\tname=one.s:3\n\
experiment\tselected=one.s:1\tspeedup=0\tend=exited:0\ttime=4200\tdelay=0\tretired=3\tstarts=1\n\
output\tlength=0\tsha256=e3b0c44298fc1c149afbf4c8996fb92427ae41e4649b934ca495991b7852b855\n\
throughput-point\tindex=0\tdelta=1\n\
visits\tsha256=a6154681ac3f49d5aa02c9d59a6f7919a1894811055c7460e871f7250cdd1d43\n";

/// Words with the machine that they describe, before or after those of the profile.
static ROWS: [Row; 5] = [
    (
        &[
            "one",
            "--lines=one.s:1",
            "--progress=one.s:3",
            "--speedups=0",
        ],
        0,
        USUAL,
        b"",
    ),
    (
        &[
            "--cores=256",
            "--costs=ecall=40",
            "one",
            "--lines=one.s:1",
            "--progress=one.s:3",
            "--speedups=0",
        ],
        0,
        USUAL,
        b"",
    ),
    (
        &[
            "--cores",
            "1",
            "one",
            "--lines=one.s:1",
            "--progress=one.s:3",
            "--speedups=0",
        ],
        0,
        ONE_CORE,
        b"",
    ),
    (
        &["one", "--lines=one.s:9", "--cores=1"],
        7,
        b"",
        b"coz: selection: no line one.s:9\n",
    ),
    (&["absent", "--cores=1"], 5, b"", b"coz: read: absent\n"),
];

#[test]
fn the_line_of_the_machine_comes_first(rt: HostRuntime) -> Result<(), Fail> {
    check_rows(&rt, Program::Gain, &programs(&rt)?, &ROWS)
}

/// An output that fails.
static FAULTS: [Fault; 1] = [(
    &["one", "--lines=one.s:1", "--speedups=0", "--cores=1"],
    &[],
    (SHUT, WIDE),
    6,
    b"",
    b"coz: write\n",
)];

#[test]
fn a_profile_that_is_not_written_is_a_fault(rt: HostRuntime) -> Result<(), Fail> {
    check_faults(&rt, Program::Gain, &programs(&rt)?, &FAULTS)
}
