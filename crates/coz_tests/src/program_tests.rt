//! Programs that are assembled, run and profiled, and what is printed.
use crate::calls::{
    Row, add, assembled, check_call, check_rows, one_file, over, printed, programs_of,
};
use crate::checks::{Expected, Output, check_equal};
use crate::sources::{LINED, ONE, Source};
use coz_files::HeldFile;
use std::alloc::{AllocError, Global};
use std::process::Abort;
use std::test::Fail;
use std::thread::Threads;

/// What `run` prints of the program of three instructions.
pub(crate) const ONE_RUN: &[u8] =
    b"end exited:0\ntime 4200\ndelay 0\nnet 4200\nretired 3\nstarts 0\nhart 0 own 0 paused 0 credited 0\noutput 0\n\n";

#[test]
fn an_assembled_program_runs(rt: HostRuntime) -> Result<(), Fail> {
    let program = assembled(&rt, "one.s", ONE)?;
    check_equal(&rt, program.len(), 4536);
    let files = one_file(rt.alloc(), "made", &program)?;
    let expected = (0, Output::Whole(ONE_RUN), b"".as_slice());
    check_call(&rt, &["run", "made"], &over(&files), expected)
}

/// Line tables of 13 bytes, and the lines of their faults: the beginning of a unit whose header
/// says that it is longer, and one of the form of 64 bits.
/// By hand, from docs/FORMATS.md, Line table.
static TABLES: [([u8; 13], &[u8]); 2] = [
    (
        [9, 0, 0, 0, 4, 0, 0x1B, 0, 0, 0, 4, 1, 1],
        b"coz: lines: Short at 6\n",
    ),
    ([0xFF; 13], b"coz: lines: LongForm at 0\n"),
];

/// The file of `one.s` with this line table.
fn with_table(alloc: Global, file: &[u8], table: &[u8]) -> Result<Vec<u8>, AllocError> {
    let mut cut = Vec::new(alloc);
    cut.extend_from_slice(file.get(..4108).unwrap_or(&[]))?;
    cut.extend_from_slice(table)?;
    cut.extend_from_slice(file.get(4121..4440).unwrap_or(&[]))?;
    // the size of the section
    cut.push(13)?;
    cut.extend_from_slice(file.get(4441..).unwrap_or(&[]))?;
    Ok(cut)
}

fn check_table<R: Threads + Sync + AllocGlobal + Abort>(
    rt: &R,
    program: &[u8],
    table: &[u8],
    err: &[u8],
) -> Result<(), Fail> {
    let cut = with_table(rt.alloc(), program, table)?;
    let files = one_file(rt.alloc(), "cut", &cut)?;
    check_call(
        rt,
        &["run", "cut"],
        &over(&files),
        (4, Output::Whole(b""), err),
    )
}

#[test]
fn faults_of_line_tables_are_reported(rt: HostRuntime) -> Result<(), Fail> {
    let program = assembled(&rt, "one.s", ONE)?;
    for (table, err) in &TABLES {
        check_table(&rt, &program, table, *err)?;
    }
    Ok(())
}

/// Programs that write 1,024 bytes again and again, which fill the output, and 1,000, of which
/// the last write is cut to 304.
static WRITERS: [Source; 2] = [
    (
        "whole.s",
        b"again: li a0, 1\nla a1, text\nli a2, 1024\nli a7, 64\necall\n\
        j again\n\
        .data\ntext: .zero 1024\n",
    ),
    (
        "cut.s",
        b"again: li a0, 1\nla a1, text\nli a2, 1000\nli a7, 64\necall\n\
        j again\n\
        .data\ntext: .zero 1000\n",
    ),
];

/// The arguments, and how the record of the run begins.
/// `tools/check-tables` computes the same from the sources, by docs/FORMATS.md, without the code.
static FULL: [(&[&str], &[u8]); 2] = [
    (
        &["run", "whole"],
        b"end output-full\ntime 19251000\ndelay 0\nnet 19251000\nretired 28671\nstarts 0\nhart 0 own 0 paused 0 credited 0\noutput 4194304\n",
    ),
    (
        &["run", "cut"],
        b"end output-full\ntime 19716300\ndelay 0\nnet 19716300\nretired 29364\nstarts 0\nhart 0 own 0 paused 0 credited 0\noutput 4194304\n",
    ),
];

#[test]
fn a_run_ends_when_its_output_is_full(rt: HostRuntime) -> Result<(), Fail> {
    let programs = programs_of(&rt, &WRITERS)?;
    for (words, head) in &FULL {
        let expected = (1, Output::Head(*head, 4_194_427), b"".as_slice());
        check_call(&rt, *words, &over(&programs), expected)?;
    }
    Ok(())
}

const ONE_LINES: &[u8] = b"skipped 0\nd/one.s:1\t0x10000\nd/one.s:2\t0x10004\nd/one.s:3\t0x10008\n";

const DELAYED: &[u8] =
    b"end exited:0\ntime 4200\ndelay 3800\nnet 400\nretired 3\nstarts 1\nhart 0 own 3800 paused 0 credited 0\noutput 0\n\n";

const SHORT: &[u8] = b"end exited:0\nnet 400\nretired 3\nstarts 1\noutput 0\n\n";

const COUNTED: &[u8] =
    b"end exited:0\ntime 4200\ndelay 0\nnet 4200\nretired 3\nstarts 1\nhart 0 own 0 paused 0 credited 0\noutput 0\n\n";

const VISITED: &[u8] =
    b"end exited:0\ntime 4200\ndelay 50\nnet 4150\nretired 3\nstarts 1\nhart 0 own 50 paused 0 credited 0\nvisit 0 hart 0 time 100 delay 50 net 50\nvisit 1 hart 0 time 4200 delay 50 net 4150\noutput 0\n\n";

const SHORT_VISITED: &[u8] =
    b"end exited:0\nnet 4150\nretired 3\nstarts 1\nvisit 0 hart 0 net 50\nvisit 1 hart 0 net 4150\noutput 0\n\n";

const TWO_START: &[u8] =
    b"end exited:0\ntime 8750\ndelay 100\nnet 8650\nretired 13\nstarts 2\nhart 0 own 50 paused 50 credited 0\nhart 1 own 50 paused 50 credited 0\nvisit 0 hart 0 time 4650 delay 100 net 4550\nvisit 0 hart 1 time 4650 delay 100 net 4550\noutput 0\n\n";

const TIE_IS_CUT: &[u8] =
    b"end exited:0\ntime 8750\ndelay 100\nnet 8650\nretired 13\nstarts 2\nhart 0 own 50 paused 50 credited 0\nhart 1 own 50 paused 50 credited 0\nvisit 0 hart 0 time 4500 delay 0 net 4500\nvisit 0 hart 1 time 4550 delay 50 net 4500\noutput 0\n\n";

const CHILD_IS_CREDITED: &[u8] =
    b"end exited:0\ntime 8700\ndelay 50\nnet 8650\nretired 13\nstarts 1\nhart 0 own 50 paused 0 credited 0\nhart 1 own 0 paused 0 credited 50\noutput 0\n\n";

const TRAP_IS_VISITED: &[u8] =
    b"end trapped:break:0:0x10000\nnet 50\nretired 1\nstarts 1\nvisit 0 hart 0 net 50\noutput 0\n\n";

const STALLS: &[u8] =
    b"end stalled\ntime 4500\ndelay 0\nnet 4500\nretired 6\nstarts 0\nhart 0 own 0 paused 0 credited 0\noutput 0\n\n";

const JOINS: &[u8] =
    b"end exited:0\ntime 17000\ndelay 0\nnet 17000\nretired 20\nstarts 0\nhart 0 own 0 paused 0 credited 0\nhart 1 own 0 paused 0 credited 0\noutput 0\n\n";

const WAITER_IS_CREDITED: &[u8] =
    b"end exited:0\ntime 43300\ndelay 19000\nnet 24300\nretired 57\nstarts 10\nhart 0 own 0 paused 0 credited 19000\nhart 1 own 19000 paused 0 credited 0\noutput 0\n\n";

const WAITS: &[u8] =
    b"end exited:0\ntime 43300\ndelay 0\nnet 43300\nretired 57\nstarts 10\nhart 0 own 0 paused 0 credited 0\nhart 1 own 0 paused 0 credited 0\noutput 0\n\n";

const DONE: &[u8] =
    b"end exited:0\ntime 488700\ndelay 0\nnet 488700\nretired 1568\nstarts 0\nhart 0 own 0 paused 0 credited 0\nhart 1 own 0 paused 0 credited 0\noutput 5\ndone\n\n";

const LOSES_CODE: &[u8] =
    b"end trapped:fetch:0:0x10020\ntime 14600\ndelay 2500\nnet 12100\nretired 107\nstarts 50\nhart 0 own 2500 paused 0 credited 0\noutput 0\n\n";

const SHORT_LOSES_CODE: &[u8] =
    b"end trapped:fetch:0:0x10020\nnet 12100\nretired 107\nstarts 50\noutput 0\n\n";

const PROFILED: &[u8] =
    b"coz-ticks\tversion=1\tbudget=100000000\tpoints=0\nexperiment\tselected=d/one.s:1\tspeedup=0\tend=exited:0\ttime=4200\tdelay=0\tretired=3\tstarts=1\noutput\tlength=0\tsha256=e3b0c44298fc1c149afbf4c8996fb92427ae41e4649b934ca495991b7852b855\nvisits\tsha256=e3b0c44298fc1c149afbf4c8996fb92427ae41e4649b934ca495991b7852b855\nexperiment\tselected=d/one.s:1\tspeedup=50\tend=exited:0\ttime=4200\tdelay=50\tretired=3\tstarts=1\noutput\tlength=0\tsha256=e3b0c44298fc1c149afbf4c8996fb92427ae41e4649b934ca495991b7852b855\nvisits\tsha256=e3b0c44298fc1c149afbf4c8996fb92427ae41e4649b934ca495991b7852b855\n";

const PLANNED: &[u8] =
    b"coz-ticks\tversion=1\tbudget=100000000\tpoints=2\npoint\tindex=0\tname=d/one.s:1\npoint\tindex=1\tname=d/one.s:3\nexperiment\tselected=d/one.s:3\tspeedup=0\tend=exited:0\ttime=4200\tdelay=0\tretired=3\tstarts=1\noutput\tlength=0\tsha256=e3b0c44298fc1c149afbf4c8996fb92427ae41e4649b934ca495991b7852b855\nthroughput-point\tindex=0\tdelta=1\nthroughput-point\tindex=1\tdelta=1\nvisits\tsha256=311c28758470181a2359726d62577fd5ad256010eea90c084fc1048b7363fb50\nexperiment\tselected=d/one.s:3\tspeedup=50\tend=exited:0\ttime=4200\tdelay=2000\tretired=3\tstarts=1\noutput\tlength=0\tsha256=e3b0c44298fc1c149afbf4c8996fb92427ae41e4649b934ca495991b7852b855\nthroughput-point\tindex=0\tdelta=1\nthroughput-point\tindex=1\tdelta=1\nvisits\tsha256=face0d2a0780a5e63e2c1e057ef7ce7994e2fafc978e6b8af2e0f341238eca6f\n";

const SPENT_RUNS: &[u8] =
    b"coz-ticks\tversion=1\tbudget=2\tpoints=0\nexperiment\tselected=d/one.s:1\tspeedup=0\tend=spent\ttime=200\tdelay=0\tretired=2\tstarts=1\noutput\tlength=0\tsha256=e3b0c44298fc1c149afbf4c8996fb92427ae41e4649b934ca495991b7852b855\nvisits\tsha256=e3b0c44298fc1c149afbf4c8996fb92427ae41e4649b934ca495991b7852b855\nexperiment\tselected=d/one.s:1\tspeedup=50\tend=spent\ttime=200\tdelay=50\tretired=2\tstarts=1\noutput\tlength=0\tsha256=e3b0c44298fc1c149afbf4c8996fb92427ae41e4649b934ca495991b7852b855\nvisits\tsha256=e3b0c44298fc1c149afbf4c8996fb92427ae41e4649b934ca495991b7852b855\n";

/// `tools/check-tables` computes the records from the sources, by docs/FORMATS.md, without the
/// code. The other texts are by hand, from the same page.
static NAMED: [Row; 26] = [
    (&["lines", "d/one"], 0, ONE_LINES, b""),
    (&["lines", "five"], 0, ONE_LINES, b""),
    (
        &["run", "d/one", "--line", "one.s:3", "--speedup", "95"],
        0,
        DELAYED,
        b"",
    ),
    (
        &["really", "d/one", "--line", "one.s:3", "--speedup", "95"],
        0,
        SHORT,
        b"",
    ),
    (&["run", "d/one", "--line=d/one.s:2"], 0, COUNTED, b""),
    (
        &[
            "run",
            "d/one",
            "--line=one.s:1",
            "--speedup=50",
            "--progress=one.s:3,one.s:1,d/one.s:3",
        ],
        0,
        VISITED,
        b"",
    ),
    (
        &[
            "really",
            "d/one",
            "--line=one.s:1",
            "--speedup=50",
            "--progress=one.s:3,one.s:1",
        ],
        0,
        SHORT_VISITED,
        b"",
    ),
    (
        &[
            "run",
            "two",
            "--line=two.s:5",
            "--speedup=50",
            "--progress=two.s:6",
        ],
        0,
        TWO_START,
        b"",
    ),
    (
        &[
            "run",
            "two",
            "--line=two.s:6",
            "--speedup=50",
            "--progress=two.s:5",
        ],
        0,
        TIE_IS_CUT,
        b"",
    ),
    (
        &["run", "two", "--line=two.s:3", "--speedup=50"],
        0,
        CHILD_IS_CREDITED,
        b"",
    ),
    (
        &[
            "really",
            "trap",
            "--line=trap.s:1",
            "--speedup=50",
            "--progress=trap.s:1",
        ],
        1,
        TRAP_IS_VISITED,
        b"",
    ),
    (
        &["run", "d/one", "--line", "one.s:9"],
        7,
        b"",
        b"coz: selection: no line one.s:9\n",
    ),
    (
        &["really", "d/one", "--progress", "one.s:1,two.s:1,three.s:1"],
        7,
        b"",
        b"coz: selection: no line two.s:1\n",
    ),
    (
        &["run", "d/one", "--line", "s:1", "--progress", "two.s:1"],
        7,
        b"",
        b"coz: selection: no line s:1\n",
    ),
    (&["run", "stall"], 1, STALLS, b""),
    (&["run", "join"], 0, JOINS, b""),
    (
        &["run", "wait", "--line", "wait.s:17", "--speedup", "95"],
        0,
        WAITER_IS_CREDITED,
        b"",
    ),
    (&["run", "wait", "--line", "wait.s:17"], 0, WAITS, b""),
    (&["run", "pc"], 0, DONE, b""),
    (
        &["run", "lose", "--line=lose.s:2", "--speedup=50"],
        1,
        LOSES_CODE,
        b"",
    ),
    (
        &["really", "lose", "--line=lose.s:2", "--speedup=50"],
        1,
        SHORT_LOSES_CODE,
        b"",
    ),
    (
        &["profile", "d/one", "--lines", "one.s:1", "--speedups", "50"],
        0,
        PROFILED,
        b"",
    ),
    (
        &[
            "profile",
            "--speedups=50,0,50",
            "--lines=one.s:3,d/one.s:3",
            "d/one",
            "--progress=one.s:3,one.s:1",
        ],
        0,
        PLANNED,
        b"",
    ),
    (
        &[
            "profile",
            "d/one",
            "--lines=one.s:1",
            "--speedups=50",
            "--budget=2",
        ],
        1,
        SPENT_RUNS,
        b"",
    ),
    (
        &["profile", "d/one", "--lines", "one.s:1,one.s:9,one.s:8"],
        7,
        b"",
        b"coz: selection: no line one.s:9\n",
    ),
    (
        &["profile", "d/one", "--lines=one.s:9", "--progress=one.s:8"],
        7,
        b"",
        b"coz: selection: no line one.s:9\n",
    ),
];

/// The programs with lines, and the first one with lines of version 5.
fn lined_programs<R: Threads + Sync + AllocGlobal>(rt: &R) -> Result<Vec<HeldFile>, AllocError> {
    let mut programs = programs_of(rt, &LINED)?;
    let source = one_file(rt.alloc(), "d/one.s", ONE)?;
    let program = printed(rt, &["asm", "--dwarf=5", "d/one.s"], &source)?;
    add(rt.alloc(), &mut programs, b"five", &program)?;
    Ok(programs)
}

#[test]
fn commands_find_lines_by_their_names(rt: HostRuntime) -> Result<(), Fail> {
    let programs = lined_programs(&rt)?;
    check_rows(&rt, &programs, &NAMED)
}

/// A program of `count` instructions, one a line.
fn long_program<R: Threads + Sync + AllocGlobal>(
    rt: &R,
    count: usize,
) -> Result<Vec<HeldFile>, AllocError> {
    let mut source = Vec::new(rt.alloc());
    for _ in 0..count {
        source.extend_from_slice(b"nop\n")?;
    }
    let program = assembled(rt, "p.s", &source)?;
    one_file(rt.alloc(), "p", &program)
}

/// The list of the lines from 1 to `count`.
fn list_of_lines(alloc: Global, count: usize) -> Result<String, AllocError> {
    let mut list = String::from_str(alloc, "p.s:1")?;
    for line in 1..count {
        let named = format!(in alloc; ",p.s:{}", line + 1)?;
        list.push_str(named.as_str())?;
    }
    Ok(list)
}

/// Calls `really` with all lines of a program of `count` instructions as its points.
fn check_points<R: Threads + Sync + AllocGlobal + Abort>(
    rt: &R,
    count: usize,
    expected: Expected,
) -> Result<(), Fail> {
    let files = long_program(rt, count)?;
    let list = list_of_lines(rt.alloc(), count)?;
    let words = ["really", "p", "--progress", list.as_str()];
    check_call(rt, &words, &over(&files), expected)
}

/// How the record of a run of 64 instructions and as many points begins.
const LONG_HEAD: &[u8] = b"end trapped:illegal:0:0x10100\nnet ";

#[test]
fn at_most_64_points_are_accepted(rt: HostRuntime) -> Result<(), Fail> {
    let accepted = (1, Output::Head(LONG_HEAD, 1_650), b"".as_slice());
    check_points(&rt, 64, accepted)?;
    let rejected = (
        7,
        Output::Whole(b""),
        b"coz: selection: 65 points\n".as_slice(),
    );
    check_points(&rt, 65, rejected)
}

/// The points are checked before the number of experiments.
#[test]
fn at_most_100000_experiments_are_planned(rt: HostRuntime) -> Result<(), Fail> {
    let files = long_program(&rt, 5001)?;
    let too_long = (
        9,
        Output::Whole(b""),
        b"coz: plan: 100020 experiments\n".as_slice(),
    );
    check_call(&rt, &["profile", "p"], &over(&files), too_long)?;
    let rejected = (
        7,
        Output::Whole(b""),
        b"coz: selection: 5001 points\n".as_slice(),
    );
    let list = list_of_lines(rt.alloc(), 5001)?;
    let words = ["profile", "p", "--progress", list.as_str()];
    check_call(&rt, &words, &over(&files), rejected)
}
