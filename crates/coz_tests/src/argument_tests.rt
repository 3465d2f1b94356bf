//! Arguments, files and sinks: what is printed, and the exit status.
use crate::calls::{Room, Row, Setup, TEN, WIDE, add, check_call, check_rows};
use crate::checks::Output;
use crate::program_tests::ONE_RUN;
use crate::sources::{ONE, Source};
use coz_files::HeldFile;
use std::alloc::{AllocError, Global};
use std::process::Abort;
use std::test::Fail;
use std::thread::Threads;

/// The fixed parts of the two headers of a program of three words.
/// By the System V gABI, chapters 4 and 5.
const HEADERS: [u8; 120] = [
    // e_ident.
    0x7F, 0x45, 0x4C, 0x46, 2, 1, 1, 0, 0, 0, 0, 0, 0, 0, 0, 0,
    // e_type ET_EXEC, e_machine EM_RISCV, e_version.
    2, 0, 243, 0, 1, 0, 0, 0,
    // e_entry 0x10000, e_phoff 64, e_shoff.
    0, 0, 1, 0, 0, 0, 0, 0, 64, 0, 0, 0, 0, 0, 0, 0, 0, 0, 0, 0, 0, 0, 0, 0,
    // e_flags, e_ehsize, e_phentsize, e_phnum, e_shentsize, e_shnum, e_shstrndx.
    0, 0, 0, 0, 64, 0, 56, 0, 1, 0, 64, 0, 0, 0, 0, 0,
    // p_type PT_LOAD, p_flags PF_R and PF_X, p_offset 4096, p_vaddr 0x10000, p_paddr.
    1, 0, 0, 0, 5, 0, 0, 0, 0, 0x10, 0, 0, 0, 0, 0, 0, 0, 0, 1, 0, 0, 0, 0, 0, 0, 0, 1, 0, 0, 0, 0,
    0,
    // p_filesz 12, p_memsz 12, p_align 4096.
    12, 0, 0, 0, 0, 0, 0, 0, 12, 0, 0, 0, 0, 0, 0, 0, 0, 0x10, 0, 0, 0, 0, 0, 0,
];

/// A program of these 12 bytes of text.
fn program(alloc: Global, text: &[u8]) -> Result<Vec<u8>, AllocError> {
    let mut file = HEADERS.to_vec(alloc)?;
    for _ in 0..3976 {
        file.push(0)?;
    }
    file.extend_from_slice(text)?;
    Ok(file)
}

/// The texts of the programs, by path: three words each.
static TEXTS: [(&str, [u8; 12]); 7] = [
    // addi a0, x0, 0; addi a7, x0, 93; ecall
    (
        "one",
        [0x13, 0x05, 0, 0, 0x93, 0x08, 0xD0, 0x05, 0x73, 0, 0, 0],
    ),
    // with 92 in place of 93
    (
        "other",
        [0x13, 0x05, 0, 0, 0x93, 0x08, 0xC0, 0x05, 0x73, 0, 0, 0],
    ),
    // ebreak
    ("break", [0x73, 0, 0x10, 0, 0, 0, 0, 0, 0, 0, 0, 0]),
    // jalr x0, 0(x0)
    ("fetch", [0x67, 0, 0, 0, 0, 0, 0, 0, 0, 0, 0, 0]),
    // jalr x0, 2(x0)
    ("misaligned", [0x67, 0, 0x20, 0, 0, 0, 0, 0, 0, 0, 0, 0]),
    // lw x0, 0(x0)
    ("access", [0x03, 0x20, 0, 0, 0, 0, 0, 0, 0, 0, 0, 0]),
    // jal x0, 0
    ("again", [0x6F, 0, 0, 0, 0, 0, 0, 0, 0, 0, 0, 0]),
];

/// A program whose header flags compressed instructions.
fn compressed(alloc: Global) -> Result<Vec<u8>, AllocError> {
    let mut file = Vec::new(alloc);
    file.extend_from_slice(&HEADERS[..48])?;
    // e_flags: EF_RISCV_RVC.
    file.push(1)?;
    file.extend_from_slice(&HEADERS[49..])?;
    Ok(file)
}

/// A program whose header has its area twice.
fn doubled(alloc: Global) -> Result<Vec<u8>, AllocError> {
    let mut file = Vec::new(alloc);
    file.extend_from_slice(&HEADERS[..56])?;
    // e_phnum.
    file.push(2)?;
    file.extend_from_slice(&HEADERS[57..])?;
    file.extend_from_slice(&HEADERS[64..])?;
    for _ in 0..3932 {
        file.push(0)?;
    }
    Ok(file)
}

/// A source of the program `one`, and three that have a fault.
static SOURCES: [Source; 4] = [
    ("one.s", ONE),
    ("range.s", b"    addi a0, x0, 2048"),
    ("empty.s", b""),
    ("much.s", b".data\n.zero 1048576\n.byte 1"),
];

/// The programs, headers alone, the sources, and an input.
fn files(alloc: Global) -> Result<Vec<HeldFile>, AllocError> {
    let mut files = Vec::new(alloc);
    for (path, text) in &TEXTS {
        add(alloc, &mut files, path.as_bytes(), &program(alloc, text)?)?;
    }
    for (path, text) in &SOURCES {
        add(alloc, &mut files, path.as_bytes(), *text)?;
    }
    add(alloc, &mut files, b"headers", &HEADERS)?;
    add(alloc, &mut files, b"compressed", &compressed(alloc)?)?;
    add(alloc, &mut files, b"doubled", &doubled(alloc)?)?;
    add(alloc, &mut files, b"data", b"five")?;
    Ok(files)
}

const OTHER: &[u8] =
    b"end unsupported:92\ntime 4200\ndelay 0\nnet 4200\nretired 3\nstarts 0\nhart 0 own 0 paused 0 credited 0\noutput 0\n\n";

const BREAK: &[u8] =
    b"end trapped:break:0:0x10000\ntime 100\ndelay 0\nnet 100\nretired 1\nstarts 0\nhart 0 own 0 paused 0 credited 0\noutput 0\n\n";

const FETCH: &[u8] =
    b"end trapped:fetch:0:0x0\ntime 300\ndelay 0\nnet 300\nretired 2\nstarts 0\nhart 0 own 0 paused 0 credited 0\noutput 0\n\n";

const MISALIGNED: &[u8] =
    b"end trapped:misaligned:0:0x10000\ntime 200\ndelay 0\nnet 200\nretired 1\nstarts 0\nhart 0 own 0 paused 0 credited 0\noutput 0\n\n";

const ACCESS: &[u8] =
    b"end trapped:access:0:0x10000\ntime 300\ndelay 0\nnet 300\nretired 1\nstarts 0\nhart 0 own 0 paused 0 credited 0\noutput 0\n\n";

const SPENT: &[u8] =
    b"end spent\ntime 200\ndelay 0\nnet 200\nretired 2\nstarts 0\nhart 0 own 0 paused 0 credited 0\noutput 0\n\n";

const SPENT_AGAIN: &[u8] =
    b"end spent\ntime 200000\ndelay 0\nnet 200000\nretired 1000\nstarts 0\nhart 0 own 0 paused 0 credited 0\noutput 0\n\n";

const TRIAL: &[u8] =
    b"source 774 01531099276cf41046b904858abd732929f0b4ba64545ed3dba3948cb4e197d8\n\
lines 42\nexperiments 36\n\
profile 10734 45bdcaaa1f891c7be6e1c624763224c0d42de9442655e5a0f528f8f9f05dd3de\nbest trial.s:26 900\n";

/// An independent implementation prints the same texts.
static RUNS: [Row; 12] = [
    (&["run", "one"], 0, ONE_RUN, b""),
    (&["run", "other"], 1, OTHER, b""),
    (&["run", "break"], 1, BREAK, b""),
    (&["run", "fetch"], 1, FETCH, b""),
    (&["run", "misaligned"], 1, MISALIGNED, b""),
    (&["run", "access"], 1, ACCESS, b""),
    (&["run", "--", "one"], 0, ONE_RUN, b""),
    (
        &["run", "--budget=3", "one", "--input", "data"],
        0,
        ONE_RUN,
        b"",
    ),
    (&["run", "one", "--budget", "2"], 1, SPENT, b""),
    (&["run", "again", "--budget", "1000"], 1, SPENT_AGAIN, b""),
    (
        &["profile", "one"],
        0,
        b"coz-ticks\tversion=1\tbudget=100000000\tpoints=0\n",
        b"",
    ),
    (&["trial", "1", "--size", "1"], 0, TRIAL, b""),
];

#[test]
fn runs_profiles_and_trials_are_printed(rt: HostRuntime) -> Result<(), Fail> {
    check_rows(&rt, &files(rt.alloc())?, &RUNS)
}

const USAGE: &[u8] = b"coz: usage\n";

/// By hand, from docs/FORMATS.md, Commands and Values.
static INVALID: [Row; 14] = [
    (&[], 2, b"", USAGE),
    (&["run"], 2, b"", USAGE),
    (&["run", ""], 2, b"", USAGE),
    (&["run", "-one"], 2, b"", USAGE),
    (&["run", "one", "other"], 2, b"", USAGE),
    (&["walk", "one"], 2, b"", USAGE),
    (&["run", "one", "--budget", "0"], 2, b"", USAGE),
    (&["asm", "one.s", "--budget", "3"], 2, b"", USAGE),
    (&["profile", "one", "--workers", "0"], 2, b"", USAGE),
    (&["profile", "one", "--workers", "17"], 2, b"", USAGE),
    (&["profile", "one", "--workers", "x"], 2, b"", USAGE),
    (&["profile", "one", "--workers", ""], 2, b"", USAGE),
    (
        &["profile", "one", "--workers", "2", "--workers", "2"],
        2,
        b"",
        USAGE,
    ),
    (&["run", "one", "--workers", "2"], 2, b"", USAGE),
];

#[test]
fn invalid_arguments_are_rejected(rt: HostRuntime) -> Result<(), Fail> {
    check_rows(&rt, &files(rt.alloc())?, &INVALID)
}

/// By hand, as the next table, from docs/FORMATS.md, Exit statuses.
static ABSENT: [Row; 4] = [
    (
        &["run", "one", "--input", "absent"],
        5,
        b"",
        b"coz: read: absent\n",
    ),
    (&["run", "absent"], 5, b"", b"coz: read: absent\n"),
    (&["plot", "absent"], 5, b"", b"coz: read: absent\n"),
    (&["asm", "absent"], 5, b"", b"coz: read: absent\n"),
];

static FAULTY: [Row; 6] = [
    (
        &["run", "headers"],
        3,
        b"",
        b"coz: program: HeaderOut at 64\n",
    ),
    (
        &["run", "compressed"],
        3,
        b"",
        b"coz: program: Compressed at 48\n",
    ),
    (
        &["run", "doubled"],
        3,
        b"",
        b"coz: program: SharedPage at 120\n",
    ),
    (
        &["asm", "range.s"],
        11,
        b"",
        b"coz: source: Range at line 1 column 18\n",
    ),
    (
        &["asm", "--", "empty.s"],
        11,
        b"",
        b"coz: source: Empty at line 1 column 1\n",
    ),
    (
        &["asm", "much.s"],
        11,
        b"",
        b"coz: source: Much at line 3 column 1\n",
    ),
];

#[test]
fn faults_of_files_are_reported(rt: HostRuntime) -> Result<(), Fail> {
    let files = files(rt.alloc())?;
    check_rows(&rt, &files, &ABSENT)?;
    check_rows(&rt, &files, &FAULTY)
}

/// A sink whose first put fails.
const SHUT: Room = Room {
    bytes: 1000,
    fails: &[0],
};

/// A sink whose fourth put fails.
const FOURTH_FAILS: Room = Room {
    bytes: 1000,
    fails: &[3],
};

/// The arguments, the reads that fail, the sinks, and the expected exit status, output and error
/// line.
type Fault = (
    &'static [&'static str],
    &'static [u64],
    (Room, Room),
    u8,
    &'static [u8],
    &'static [u8],
);

fn check_faults<R: Threads + Sync + AllocGlobal + Abort>(
    rt: &R,
    faults: &[Fault],
) -> Result<(), Fail> {
    let files = files(rt.alloc())?;
    for (words, fails, rooms, status, out, err) in faults {
        let setup = Setup {
            files: &files,
            fails: *fails,
            rooms: *rooms,
        };
        let expected = (*status, Output::Whole(*out), *err);
        check_call(rt, *words, &setup, expected)?;
    }
    Ok(())
}

const TWO_READS: [&str; 6] = ["profile", "one", "--input", "data", "--lines", "one.s:1"];

/// By hand, as the next two tables, from docs/FORMATS.md, Exit statuses.
static READS: [Fault; 7] = [
    (
        &["run", "one"],
        &[0],
        (WIDE, WIDE),
        5,
        b"",
        b"coz: read: one\n",
    ),
    (
        &["run", "one", "--input", "data"],
        &[1],
        (WIDE, WIDE),
        5,
        b"",
        b"coz: read: data\n",
    ),
    (
        &["asm", "one.s"],
        &[0],
        (WIDE, WIDE),
        5,
        b"",
        b"coz: read: one.s\n",
    ),
    (&TWO_READS, &[0], (WIDE, WIDE), 5, b"", b"coz: read: one\n"),
    (&TWO_READS, &[1], (WIDE, WIDE), 5, b"", b"coz: read: data\n"),
    // Each file is read once.
    (&["run", "one"], &[1], (WIDE, WIDE), 0, ONE_RUN, b""),
    (
        &["run", "one", "--input", "data"],
        &[2],
        (WIDE, WIDE),
        0,
        ONE_RUN,
        b"",
    ),
];

#[test]
fn failed_reads_are_reported(rt: HostRuntime) -> Result<(), Fail> {
    check_faults(&rt, &READS)
}

static WRITES: [Fault; 6] = [
    (&["run", "one"], &[], (SHUT, WIDE), 6, b"", b"coz: write\n"),
    (
        &["run", "one"],
        &[],
        (TEN, WIDE),
        6,
        b"end exited",
        b"coz: write\n",
    ),
    (
        &["profile", "one"],
        &[],
        (TEN, WIDE),
        6,
        b"coz-ticks\t",
        b"coz: write\n",
    ),
    (
        &["trial", "1", "--size", "1"],
        &[],
        (TEN, WIDE),
        6,
        b"source 774",
        b"coz: write\n",
    ),
    (
        &["asm", "one.s"],
        &[],
        (SHUT, WIDE),
        6,
        b"",
        b"coz: write\n",
    ),
    (
        &["asm", "one.s"],
        &[],
        (TEN, WIDE),
        6,
        b"\x7fELF\x02\x01\x01\x00\x00\x00",
        b"coz: write\n",
    ),
];

#[test]
fn failed_writes_are_reported(rt: HostRuntime) -> Result<(), Fail> {
    check_faults(&rt, &WRITES)
}

static ERROR_LINES: [Fault; 2] = [
    (&["walk"], &[], (WIDE, SHUT), 2, b"", b""),
    (&["walk"], &[], (WIDE, FOURTH_FAILS), 2, b"", b"coz: usage"),
];

#[test]
fn the_status_is_kept_if_the_error_line_fails(rt: HostRuntime) -> Result<(), Fail> {
    check_faults(&rt, &ERROR_LINES)
}
