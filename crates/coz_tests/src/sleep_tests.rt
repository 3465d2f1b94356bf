//! Programs whose harts sleep and read the clock: the net times of `run` are the times of `really`.
//! `sources.rt` says which system calls their numbers are.
use crate::calls::{Pair, Row, check_pairs, check_rows, programs_of};
use crate::sources::{CLOCK, DOZE, NAP, Source};
use std::test::Fail;

/// One hart sleeps, or reads the clock. Of two harts one sleeps beside one that works, or for no time
/// beside one that is due at the same time, as the first hart or the second. One hart exits while the
/// other sleeps, or both sleep, or one ends the run while the other sleeps.
static SLEEPERS: [Source; 9] = [
    ("nap.s", NAP),
    ("clock.s", CLOCK),
    (
        "read.s",
        b"div t0, t0, t0\nla a1, room\nli a0, 1\nli a7, 113\necall\n\
        ld a0, 8(a1)\nli a7, 94\necall\n\
        .data\nroom: .dword 0, 0\n",
    ),
    ("doze.s", DOZE),
    (
        "first.s",
        b"li a0, 0x10F00\nli a7, 220\necall\n\
        beq a0, x0, other\nla a0, span\nli a7, 101\necall\n\
        li a7, 94\necall\n\
        other: la a0, span\nli a7, 124\necall\n\
        again: j again\n\
        .data\nspan: .dword 0, 0\n",
    ),
    (
        "second.s",
        b"li a0, 0x10F00\nli a7, 220\necall\n\
        bne a0, x0, other\nla a0, span\nli a7, 101\necall\n\
        li a7, 94\necall\n\
        other: la a0, span\nli a7, 124\necall\n\
        again: j again\n\
        .data\nspan: .dword 0, 0\n",
    ),
    (
        "leave.s",
        b"li a0, 0x10F00\nli a7, 220\necall\n\
        beq a0, x0, child\nla a0, span\nli a7, 101\necall\n\
        li a7, 94\necall\n\
        child: div t0, t0, t0\nli a7, 93\necall\n\
        .data\nspan: .dword 0, 50\n",
    ),
    (
        "both.s",
        b"li a0, 0x10F00\nli a7, 220\necall\n\
        la a0, span\nli a7, 101\necall\n\
        li a7, 93\necall\n\
        .data\nspan: .dword 0, 50\n",
    ),
    (
        "group.s",
        b"li a0, 0x10F00\nli a7, 220\necall\n\
        beq a0, x0, child\nla a0, span\nli a7, 101\necall\n\
        child: la a0, span\nli a1, 1\nli a2, 9\nli a7, 98\necall\n\
        li a7, 94\necall\n\
        .data\nspan: .dword 9, 0\n",
    ),
];

/// `tools/check-tables` computes the same from the sources, by docs/FORMATS.md, without the code.
static SLEEPS: [Pair; 11] = [
    // Its wake starts a selected instruction, which visits as it retires.
    (
        &["nap", "--line=nap.s:5", "--progress=nap.s:5"],
        0,
        b"end exited:0\ntime 13600\ndelay 0\nnet 13600\nretired 8\nstarts 1\nhart 0 own 0 paused 0 credited 0\nvisit 0 hart 0 time 9500 delay 0 net 9500\noutput 0\n\n",
        b"end exited:0\nnet 13600\nretired 8\nstarts 1\nvisit 0 hart 0 net 9500\noutput 0\n\n",
    ),
    (
        &[
            "nap",
            "--line=nap.s:5",
            "--progress=nap.s:5",
            "--speedup=50",
        ],
        0,
        b"end exited:0\ntime 13600\ndelay 50\nnet 13550\nretired 8\nstarts 1\nhart 0 own 50 paused 0 credited 0\nvisit 0 hart 0 time 9500 delay 50 net 9450\noutput 0\n\n",
        b"end exited:0\nnet 13550\nretired 8\nstarts 1\nvisit 0 hart 0 net 9450\noutput 0\n\n",
    ),
    // The retirement that sleeps is the last of the budget: nothing wakes.
    (
        &["nap", "--line=nap.s:5", "--budget=5"],
        1,
        b"end spent\ntime 4400\ndelay 0\nnet 4400\nretired 5\nstarts 0\nhart 0 own 0 paused 0 credited 0\noutput 0\n\n",
        b"end spent\nnet 4400\nretired 5\nstarts 0\noutput 0\n\n",
    ),
    (
        &["clock", "--line=clock.s:4", "--speedup=50"],
        1,
        b"end clock\ntime 4400\ndelay 2000\nnet 2400\nretired 5\nstarts 1\nhart 0 own 2000 paused 0 credited 0\noutput 0\n\n",
        b"end clock\nnet 2400\nretired 5\nstarts 1\noutput 0\n\n",
    ),
    // The clock tells the net time: 54 nanoseconds at 6,400 ticks, 1,000 of them delay.
    (
        &["read", "--line=read.s:1", "--speedup=50"],
        0,
        b"end exited:54\ntime 10800\ndelay 1000\nnet 9800\nretired 9\nstarts 1\nhart 0 own 1000 paused 0 credited 0\noutput 0\n\n",
        b"end exited:54\nnet 9800\nretired 9\nstarts 1\noutput 0\n\n",
    ),
    (
        &["doze", "--line=doze.s:10", "--speedup=50"],
        0,
        b"end exited:0\ntime 29800\ndelay 12000\nnet 17800\nretired 34\nstarts 12\nhart 0 own 0 paused 12000 credited 0\nhart 1 own 12000 paused 0 credited 0\noutput 0\n\n",
        b"end exited:0\nnet 17800\nretired 34\nstarts 12\noutput 0\n\n",
    ),
    // The wake of hart 0 goes before the visit of hart 1, and raises the delay.
    (
        &[
            "first",
            "--line=first.s:8",
            "--progress=first.s:12",
            "--speedup=50",
        ],
        0,
        b"end exited:0\ntime 12800\ndelay 50\nnet 12750\nretired 36\nstarts 1\nhart 0 own 50 paused 0 credited 0\nhart 1 own 0 paused 50 credited 0\nvisit 0 hart 1 time 8750 delay 50 net 8700\noutput 0\n\n",
        b"end exited:0\nnet 12750\nretired 36\nstarts 1\nvisit 0 hart 1 net 8700\noutput 0\n\n",
    ),
    // Hart 1 wakes after the visit of hart 0.
    (
        &[
            "second",
            "--line=second.s:8",
            "--progress=second.s:12",
            "--speedup=50",
        ],
        0,
        b"end exited:0\ntime 12800\ndelay 50\nnet 12750\nretired 36\nstarts 1\nhart 0 own 0 paused 50 credited 0\nhart 1 own 50 paused 0 credited 0\nvisit 0 hart 0 time 8700 delay 0 net 8700\noutput 0\n\n",
        b"end exited:0\nnet 12750\nretired 36\nstarts 1\nvisit 0 hart 0 net 8700\noutput 0\n\n",
    ),
    (
        &["leave", "--line=leave.s:10", "--speedup=50"],
        0,
        b"end exited:0\ntime 18800\ndelay 1000\nnet 17800\nretired 15\nstarts 1\nhart 0 own 0 paused 1000 credited 0\nhart 1 own 1000 paused 0 credited 0\noutput 0\n\n",
        b"end exited:0\nnet 17800\nretired 15\nstarts 1\noutput 0\n\n",
    ),
    (
        &["both", "--line=both.s:7", "--speedup=50"],
        0,
        b"end exited:0\ntime 17750\ndelay 100\nnet 17650\nretired 16\nstarts 2\nhart 0 own 50 paused 50 credited 0\nhart 1 own 50 paused 50 credited 0\noutput 0\n\n",
        b"end exited:0\nnet 17650\nretired 16\nstarts 2\noutput 0\n\n",
    ),
    (
        &["group", "--line=group.s:13", "--speedup=50"],
        0,
        b"end exited:0\ntime 13000\ndelay 50\nnet 12950\nretired 18\nstarts 1\nhart 0 own 0 paused 50 credited 0\nhart 1 own 50 paused 0 credited 0\noutput 0\n\n",
        b"end exited:0\nnet 12950\nretired 18\nstarts 1\noutput 0\n\n",
    ),
];

#[test]
fn sleeps_are_the_same_for_run_and_really(rt: HostRuntime) -> Result<(), Fail> {
    let programs = programs_of(&rt, &SLEEPERS)?;
    check_pairs(&rt, &programs, &SLEEPS)
}

/// The first start of line 8 is at a wake.
const DOZE_PROFILE: &[u8] =
    b"coz-ticks\tversion=1\tbudget=100000000\tpoints=0\nexperiment\tselected=doze.s:8\tspeedup=0\tend=exited:0\ttime=17800\tdelay=0\tretired=24\tstarts=1\noutput\tlength=0\tsha256=e3b0c44298fc1c149afbf4c8996fb92427ae41e4649b934ca495991b7852b855\nvisits\tsha256=e3b0c44298fc1c149afbf4c8996fb92427ae41e4649b934ca495991b7852b855\nexperiment\tselected=doze.s:8\tspeedup=50\tend=exited:0\ttime=17800\tdelay=50\tretired=24\tstarts=1\noutput\tlength=0\tsha256=e3b0c44298fc1c149afbf4c8996fb92427ae41e4649b934ca495991b7852b855\nvisits\tsha256=e3b0c44298fc1c149afbf4c8996fb92427ae41e4649b934ca495991b7852b855\nexperiment\tselected=doze.s:10\tspeedup=0\tend=exited:0\ttime=17800\tdelay=0\tretired=24\tstarts=7\noutput\tlength=0\tsha256=e3b0c44298fc1c149afbf4c8996fb92427ae41e4649b934ca495991b7852b855\nvisits\tsha256=e3b0c44298fc1c149afbf4c8996fb92427ae41e4649b934ca495991b7852b855\nexperiment\tselected=doze.s:10\tspeedup=50\tend=exited:0\ttime=29800\tdelay=12000\tretired=34\tstarts=12\noutput\tlength=0\tsha256=e3b0c44298fc1c149afbf4c8996fb92427ae41e4649b934ca495991b7852b855\nvisits\tsha256=e3b0c44298fc1c149afbf4c8996fb92427ae41e4649b934ca495991b7852b855\n";

/// By one worker, and by as many as there may be.
static DOZE_PROFILES: [Row; 2] = [
    (
        &[
            "profile",
            "doze",
            "--lines=doze.s:8,doze.s:10",
            "--speedups=50",
            "--workers=1",
        ],
        0,
        DOZE_PROFILE,
        b"",
    ),
    (
        &[
            "profile",
            "doze",
            "--lines=doze.s:8,doze.s:10",
            "--speedups=50",
            "--workers=16",
        ],
        0,
        DOZE_PROFILE,
        b"",
    ),
];

#[test]
fn a_line_that_starts_first_at_a_wake_is_profiled(rt: HostRuntime) -> Result<(), Fail> {
    let programs = programs_of(&rt, &SLEEPERS)?;
    check_rows(&rt, &programs, &DOZE_PROFILES)
}
