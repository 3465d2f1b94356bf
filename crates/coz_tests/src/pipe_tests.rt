//! Programs whose harts use pipes: what `run` and `really` print of them.
//! `sources.rt` says which system calls their numbers are.
use crate::calls::{Pair, check_pairs, programs_of};
use crate::sources::Source;
use std::test::Fail;

/// One hart reads to the end of a pipe, writes to a pipe whose reading end is closed, or reads from
/// a pipe that nobody writes to. A hart reads what another one writes, or waits at an end that the
/// other one closes. Two harts wait for one byte. A hart writes more than a pipe holds.
static PIPED: [Source; 7] = [
    (
        "eof.s",
        b"la s0, ends\nmv a0, s0\nli a1, 0\nli a7, 59\necall\n\
        li a0, 4\nla a1, text\nli a2, 3\nli a7, 64\necall\n\
        mv s1, a0\nli a0, 4\nli a7, 57\necall\n\
        li a0, 3\nla a1, into\nli a2, 8\nli a7, 63\necall\n\
        add s1, s1, a0\nli a0, 3\nli a7, 63\necall\n\
        add s1, s1, a0\nli a0, 1\nla a1, into\nli a2, 8\nli a7, 64\necall\n\
        mv a0, s1\nli a7, 94\necall\n\
        .data\nends: .dword 0\ntext: .ascii \"abc\"\ninto: .zero 8\n",
    ),
    (
        "broken.s",
        b"la a0, ends\nli a1, 0\nli a7, 59\necall\n\
        li a0, 3\nli a7, 57\necall\n\
        li a0, 4\nla a1, ends\nli a2, 1\nli a7, 64\necall\n\
        sub a0, x0, a0\nli a7, 94\necall\n\
        .data\nends: .dword 0\n",
    ),
    (
        "mute.s",
        b"la a0, ends\nli a1, 0\nli a7, 59\necall\n\
        li a0, 3\nla a1, ends\nli a2, 1\nli a7, 63\necall\n\
        .data\nends: .dword 0\n",
    ),
    (
        "pipe.s",
        b"la a0, ends\nli a1, 0\nli a7, 59\necall\n\
        li a0, 0x10F00\nli a1, 0\nli a7, 220\necall\n\
        beq a0, x0, child\nli a0, 3\nla a1, byte\nli a2, 1\nli a7, 63\necall\n\
        li a7, 94\necall\n\
        child: li a7, 124\necall\necall\n\
        div t0, t0, t0\nli a0, 4\nla a1, byte\nli a2, 1\nli a7, 64\necall\n\
        li a7, 93\necall\n\
        .data\nends: .dword 0\nbyte: .byte 7\n",
    ),
    (
        "gone.s",
        b"la a0, ends\nli a1, 0\nli a7, 59\necall\n\
        li a0, 0x10F00\nli a7, 220\necall\n\
        beq a0, x0, child\nli a7, 124\necall\necall\n\
        li a0, 3\nli a7, 57\necall\n\
        li a0, 0\nli a7, 93\necall\n\
        child: li a0, 3\nla a1, ends\nli a2, 1\nli a7, 63\necall\n\
        sub a0, x0, a0\nli a7, 94\necall\n\
        .data\nends: .dword 0\n",
    ),
    (
        "readers.s",
        b"la a0, ends\nli a1, 0\nli a7, 59\necall\n\
        li a0, 0x10F00\nli a7, 220\necall\n\
        beq a0, x0, child\nli a0, 0x10F00\necall\n\
        beq a0, x0, child\nli a7, 124\necall\necall\n\
        li a0, 4\nla a1, ends\nli a2, 1\nli a7, 64\necall\n\
        li a0, 4\nli a7, 57\necall\n\
        li a7, 93\necall\n\
        child: li a0, 3\nla a1, into\nli a2, 1\nli a7, 63\necall\n\
        li a7, 93\necall\n\
        .data\nends: .dword 0\ninto: .dword 0\n",
    ),
    (
        "full.s",
        b"la a0, ends\nli a1, 0\nli a7, 59\necall\n\
        li a0, 0x10F00\nli a7, 220\necall\n\
        beq a0, x0, child\nli a0, 4\nla a1, bytes\nli a2, 70000\nli a7, 64\necall\n\
        mv s0, a0\nli a0, 4\nli a2, 4096\necall\n\
        add a0, a0, s0\nsrli a0, a0, 9\nli a7, 94\necall\n\
        child: li a7, 124\necall\necall\n\
        again: li a0, 3\nla a1, into\nli a2, 1500\nli a7, 63\necall\n\
        j again\n\
        .data\nends: .dword 0\ninto: .zero 1500\nbytes: .zero 70000\n",
    ),
];

/// `tools/check-tables` computes the same from the sources, by docs/FORMATS.md, without the code.
static PIPES: [Pair; 9] = [
    (
        &["eof"],
        0,
        b"end exited:6\ntime 30900\ndelay 0\nnet 30900\nretired 36\nstarts 0\nhart 0 own 0 paused 0 credited 0\noutput 8\nabc\0\0\0\0\0\n",
        b"end exited:6\nnet 30900\nretired 36\nstarts 0\noutput 8\nabc\0\0\0\0\0\n",
    ),
    (
        &["broken"],
        0,
        b"end exited:32\ntime 17300\ndelay 0\nnet 17300\nretired 17\nstarts 0\nhart 0 own 0 paused 0 credited 0\noutput 0\n\n",
        b"end exited:32\nnet 17300\nretired 17\nstarts 0\noutput 0\n\n",
    ),
    (
        &["mute"],
        1,
        b"end stalled\ntime 8900\ndelay 0\nnet 8900\nretired 11\nstarts 0\nhart 0 own 0 paused 0 credited 0\noutput 0\n\n",
        b"end stalled\nnet 8900\nretired 11\nstarts 0\noutput 0\n\n",
    ),
    // The reader is credited with what the writer's start raised.
    (
        &["pipe", "--line=pipe.s:20", "--speedup=50"],
        0,
        b"end exited:1\ntime 31600\ndelay 1000\nnet 30600\nretired 33\nstarts 1\nhart 0 own 0 paused 0 credited 1000\nhart 1 own 1000 paused 0 credited 0\noutput 0\n\n",
        b"end exited:1\nnet 30600\nretired 33\nstarts 1\noutput 0\n\n",
    ),
    // The reader is woken by the close of its own end.
    (
        &["gone"],
        0,
        b"end exited:9\ntime 29300\ndelay 0\nnet 29300\nretired 30\nstarts 0\nhart 0 own 0 paused 0 credited 0\nhart 1 own 0 paused 0 credited 0\noutput 0\n\n",
        b"end exited:9\nnet 29300\nretired 30\nstarts 0\noutput 0\n\n",
    ),
    // Both readers try again, and visit again; the byte is the first one's.
    (
        &["readers", "--progress=readers.s:29"],
        0,
        b"end exited:0\ntime 38000\ndelay 0\nnet 38000\nretired 49\nstarts 0\nhart 0 own 0 paused 0 credited 0\nhart 1 own 0 paused 0 credited 0\nhart 2 own 0 paused 0 credited 0\nvisit 0 hart 1 time 13300 delay 0 net 13300\nvisit 0 hart 2 time 17600 delay 0 net 17600\nvisit 0 hart 1 time 29700 delay 0 net 29700\nvisit 0 hart 2 time 29700 delay 0 net 29700\nvisit 0 hart 2 time 33900 delay 0 net 33900\noutput 0\n\n",
        b"end exited:0\nnet 38000\nretired 49\nstarts 0\nvisit 0 hart 1 net 13300\nvisit 0 hart 2 net 17600\nvisit 0 hart 1 net 29700\nvisit 0 hart 2 net 29700\nvisit 0 hart 2 net 33900\noutput 0\n\n",
    ),
    (
        &["readers", "--line=readers.s:13", "--speedup=50"],
        0,
        b"end exited:0\ntime 38000\ndelay 2000\nnet 36000\nretired 49\nstarts 1\nhart 0 own 2000 paused 0 credited 0\nhart 1 own 0 paused 2000 credited 0\nhart 2 own 0 paused 2000 credited 0\noutput 0\n\n",
        b"end exited:0\nnet 36000\nretired 49\nstarts 1\noutput 0\n\n",
    ),
    // Each read wakes the writer, and only the third leaves room.
    (
        &["full", "--progress=full.s:17"],
        0,
        b"end exited:136\ntime 39100\ndelay 0\nnet 39100\nretired 66\nstarts 0\nhart 0 own 0 paused 0 credited 0\nhart 1 own 0 paused 0 credited 0\nvisit 0 hart 0 time 17800 delay 0 net 17800\nvisit 0 hart 0 time 25400 delay 0 net 25400\nvisit 0 hart 0 time 30100 delay 0 net 30100\nvisit 0 hart 0 time 34800 delay 0 net 34800\noutput 0\n\n",
        b"end exited:136\nnet 39100\nretired 66\nstarts 0\nvisit 0 hart 0 net 17800\nvisit 0 hart 0 net 25400\nvisit 0 hart 0 net 30100\nvisit 0 hart 0 net 34800\noutput 0\n\n",
    ),
    // With cheaper reads the last come before the writer tries again.
    (
        &[
            "full",
            "--line=full.s:29",
            "--speedup=95",
            "--progress=full.s:17",
        ],
        0,
        b"end exited:136\ntime 68600\ndelay 41800\nnet 26800\nretired 107\nstarts 11\nhart 0 own 0 paused 38000 credited 3800\nhart 1 own 41800 paused 0 credited 0\nvisit 0 hart 0 time 21600 delay 3800 net 17800\nvisit 0 hart 0 time 45300 delay 22800 net 22500\noutput 0\n\n",
        b"end exited:136\nnet 26800\nretired 107\nstarts 11\nvisit 0 hart 0 net 17800\nvisit 0 hart 0 net 22500\noutput 0\n\n",
    ),
];

#[test]
fn pipes_are_the_same_for_run_and_really(rt: HostRuntime) -> Result<(), Fail> {
    let programs = programs_of(&rt, &PIPED)?;
    check_pairs(&rt, &programs, &PIPES)
}
