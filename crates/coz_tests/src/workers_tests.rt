//! Profiles and trials that several workers make.
use crate::calls::{Room, Setup, Sinks, WIDE, check_call, over, programs_of, status_of, two_sinks};
use crate::checks::{Output, check_equal};
use crate::sources::{PC, Source, TWO};
use coz_files::{Gate, HeldFile};
use std::process::Abort;
use std::sync::atomic::{AtomicU64, Ordering};
use std::test::Fail;
use std::thread::{self, Threads};

static SOURCES: [Source; 2] = [("two.s", TWO), ("pc.s", PC)];

/// The SHA-256 of the profile of three lines of `pc`.
const PC_PROFILE: [u8; 32] = [
    0xE7, 0x3E, 0x1D, 0x66, 0xFC, 0xA8, 0x97, 0xC6, 0xA2, 0xEE, 0xB0, 0x12, 0x51, 0x17, 0xDA, 0xF2,
    0x62, 0x77, 0xE8, 0xBE, 0x5D, 0x4D, 0xEC, 0x00, 0x3F, 0x97, 0x82, 0xE1, 0x36, 0xD6, 0x92, 0x19,
];

/// The SHA-256 of the first 100 bytes of that profile.
const PC_BEGINNING: [u8; 32] = [
    0xD1, 0x94, 0x94, 0xBD, 0xA1, 0x53, 0x23, 0xF0, 0x24, 0x48, 0x36, 0xF2, 0xD3, 0x2E, 0x8F, 0x5F,
    0xD5, 0x0E, 0xDB, 0x14, 0x9A, 0xAD, 0x76, 0x0E, 0x80, 0x79, 0xB2, 0xAA, 0x61, 0xEB, 0x0E, 0x80,
];

/// The SHA-256 of the profile of all lines of `pc`.
const PC_WHOLE: [u8; 32] = [
    0x07, 0x70, 0xB7, 0x72, 0x1C, 0xB4, 0xE5, 0x14, 0x95, 0xA5, 0x44, 0x47, 0xA1, 0x15, 0x8B, 0xF4,
    0x50, 0x2A, 0x2A, 0x10, 0x2A, 0x38, 0x81, 0x6A, 0xCF, 0x72, 0xED, 0x2F, 0xDD, 0x43, 0x53, 0x9E,
];

const THREE_LINES: &str = "--lines=pc.s:12,pc.s:24,pc.s:62";

/// The arguments, the room of the output, and the expected exit status, output and error line.
type Profile = (
    &'static [&'static str],
    u64,
    u8,
    Output<'static>,
    &'static [u8],
);

/// The digests are `sha256sum` of what an independent implementation prints.
static PC_PROFILES: [Profile; 5] = [
    (
        &[
            "profile",
            "pc",
            "--progress=pc.s:64",
            THREE_LINES,
            "--workers=1",
        ],
        100000,
        0,
        Output::Digest(PC_PROFILE, 18018),
        b"",
    ),
    (
        &[
            "profile",
            "pc",
            "--progress=pc.s:64",
            THREE_LINES,
            "--workers=2",
        ],
        100000,
        0,
        Output::Digest(PC_PROFILE, 18018),
        b"",
    ),
    (
        &[
            "profile",
            "pc",
            "--progress=pc.s:64",
            THREE_LINES,
            "--workers=16",
        ],
        100000,
        0,
        Output::Digest(PC_PROFILE, 18018),
        b"",
    ),
    (
        &[
            "profile",
            "pc",
            "--progress=pc.s:64",
            THREE_LINES,
            "--workers=2",
        ],
        100,
        6,
        Output::Digest(PC_BEGINNING, 100),
        b"coz: write\n",
    ),
    // All lines at all speedups: 1,380 experiments.
    (
        &["profile", "pc", "--progress=pc.s:64"],
        500000,
        0,
        Output::Digest(PC_WHOLE, 410_444),
        b"",
    ),
];

#[test]
fn any_number_of_workers_prints_the_same_profile(rt: HostRuntime) -> Result<(), Fail> {
    let programs = programs_of(&rt, &SOURCES)?;
    for (words, bytes, status, out, err) in &PC_PROFILES {
        let room = Room {
            bytes: *bytes,
            fails: &[],
        };
        let setup = Setup {
            rooms: (room, WIDE),
            ..over(&programs)
        };
        check_call(&rt, *words, &setup, (*status, *out, *err))?;
    }
    Ok(())
}

/// Holds some claims until another one was made, for a bounded number of turns, each one look and
/// one yield.
#[derive(Drop)]
struct HoldingGate {
    workers: u32,
    /// The first of the claims that are held, and the one after the last.
    first: u32,
    end: u32,
    /// How many other claims are waited for.
    wanted: u64,
    turns: u32,
    others: AtomicU64,
    /// How many of the held claims saw the others made.
    met: AtomicU64,
    /// 256^k for each time that claim k was made.
    claims: AtomicU64,
    /// How often a worker had a number that no worker has.
    strangers: AtomicU64,
}

impl HoldingGate {
    fn new(row: &GateRow) -> HoldingGate {
        HoldingGate {
            workers: row.workers,
            first: row.first,
            end: row.end,
            wanted: row.wanted,
            turns: row.turns,
            others: AtomicU64::new(0),
            met: AtomicU64::new(0),
            claims: AtomicU64::new(0),
            strangers: AtomicU64::new(0),
        }
    }

    /// Counts what is wrong with a claim's and a worker's number.
    fn count(&self, worker: u32, index: u32) {
        if worker >= self.workers {
            self.strangers.fetch_add(1, Ordering::SeqCst);
        }
        if index < 8 {
            self.claims.fetch_add(1 << (8 * index), Ordering::SeqCst);
        }
    }
}

impl Gate for HoldingGate {
    fn claimed(&self, worker: u32, index: u32) {
        self.count(worker, index);
        if index < self.first || self.end <= index {
            self.others.fetch_add(1, Ordering::SeqCst);
            return;
        }
        for _ in 0..self.turns {
            if self.others.load(Ordering::SeqCst) >= self.wanted {
                self.met.fetch_add(1, Ordering::SeqCst);
                return;
            }
            thread::yield_now();
        }
    }
}

const PC_WORDS: &[&str] = &[
    "profile",
    "pc",
    "--lines=pc.s:12,pc.s:24,pc.s:62",
    "--progress=pc.s:64",
];

const TWO_WORDS: &[&str] = &[
    "profile",
    "two",
    "--lines=two.s:1,two.s:5,two.s:6",
    "--speedups=0",
];

const TRIAL_WORDS: &[&str] = &["trial", "1", "--size=1"];

/// Words and workers; which claims are held until how many others were made, for how many turns;
/// how many of them see that, and the claims that are made.
#[derive(Clone, Copy)]
struct GateRow {
    words: &'static [&'static str],
    option: &'static str,
    workers: u32,
    first: u32,
    end: u32,
    wanted: u64,
    turns: u32,
    met: u64,
    claims: u64,
}

fn gate_row(
    words: &'static [&'static str],
    option: &'static str,
    workers: u32,
    first: u32,
    end: u32,
    wanted: u64,
) -> GateRow {
    GateRow {
        words,
        option,
        workers,
        first,
        end,
        wanted,
        turns: 10_000_000,
        met: 1,
        claims: 0x01_01_01,
    }
}

fn gate_rows() -> [GateRow; 7] {
    [
        gate_row(PC_WORDS, "--workers=2", 2, 0, 1, 1),
        gate_row(TWO_WORDS, "--workers=2", 2, 0, 1, 2),
        gate_row(TWO_WORDS, "--workers=2", 2, 1, 2, 2),
        gate_row(TWO_WORDS, "--workers=2", 2, 2, 3, 2),
        // Two claims are held until a third worker has made the third.
        GateRow {
            met: 2,
            ..gate_row(TWO_WORDS, "--workers=3", 3, 0, 2, 1)
        },
        GateRow {
            claims: 0x01_01_01_01_01_01_01_01,
            ..gate_row(TRIAL_WORDS, "--workers=2", 2, 0, 1, 8)
        },
        GateRow {
            turns: 1_000,
            met: 0,
            ..gate_row(PC_WORDS, "--workers=1", 1, 0, 1, 1)
        },
    ]
}

fn check_gate_in<R: Threads + Sync + AllocGlobal + Abort>(
    rt: &R,
    row: &GateRow,
    programs: &[HeldFile],
    sinks: &mut Sinks,
) -> Result<(), Fail> {
    let mut words = Vec::new(rt.alloc());
    words.extend_from_slice(row.words)?;
    words.push(row.option)?;
    let gate = HoldingGate::new(row);
    let status = status_of(rt, &words, &over(programs), sinks, &gate)?;
    let found = (
        status,
        gate.met.load(Ordering::SeqCst),
        gate.claims.load(Ordering::SeqCst),
        gate.strangers.load(Ordering::SeqCst),
    );
    check_equal(rt, found, (0, row.met, row.claims, 0));
    Ok(())
}

fn check_gate<R: Threads + Sync + AllocGlobal + Abort>(
    rt: &R,
    row: &GateRow,
    programs: &[HeldFile],
) -> Result<(), Fail> {
    let mut sinks = two_sinks(rt.alloc(), (WIDE, WIDE))?;
    let checked = check_gate_in(rt, row, programs, &mut sinks);
    // By one call, since a drop in place is proved part by part.
    drop(sinks);
    checked
}

#[test]
fn workers_run_at_the_same_time(rt: HostRuntime) -> Result<(), Fail> {
    let programs = programs_of(&rt, &SOURCES)?;
    for row in &gate_rows() {
        check_gate(&rt, row, &programs)?;
    }
    Ok(())
}
