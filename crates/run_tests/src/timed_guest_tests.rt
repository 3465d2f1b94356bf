//! Tests of `timed_guest`: turns of harts on machines with few cores, with short slices, with lines
//! that are charged, and with jitter.
ghost use Rattle.std.specs.Prelude.{IfSome};
ghost use Rattle.timing_model.specs.Timing.{IsTiming};

use crate::checks::check_equal;
use crate::guests::{Check, Program, SMALL, check_source};
use coz_types::{Ending, HartId, LineId, Tick};
use guest_calls::Fate;
use guest_futex::HartList;
use line_index::LineIndex;
use std::alloc::Global;
use std::process::Abort;
use timed_guest::TimedGuest;
use timing_model::{Charge, Costs, Timing};

/// Hart 0 makes hart 1, and each counts, calls sched_yield and exits.
const TWO: &[u8] = b"lui a0, 17\naddi a0, a0, -256\naddi a1, x0, 0\naddi a7, x0, 220\necall\n\
    addi t0, t0, 1\naddi a7, x0, 124\necall\naddi a7, x0, 93\necall\n";

/// Hart 0 makes hart 1 and sleeps for 50 nanoseconds. Hart 1 divides twice and exits.
const SLEEPER: &[u8] = b"lui a0, 17\naddi a0, a0, -256\naddi a1, x0, 0\naddi a7, x0, 220\necall\n\
    beq a0, x0, child\nla a0, span\naddi a7, x0, 101\necall\n\
    addi t0, t0, 1\naddi a7, x0, 93\necall\n\
    child: div t0, t0, t0\ndiv t0, t0, t0\naddi a7, x0, 93\necall\n\
    .data\nspan: .dword 0, 50\n";

/// Calls two instructions that stand at its end, and exits.
const CALL: &[u8] = b"jal x1, counts\naddi a7, x0, 93\necall\n\
    counts: addi t0, t0, 1\njalr x0, 0(x1)\n";

/// Has the first three lines of `CALL`, at the same addresses.
const THREE_LINES: &[u8] = b"nop\nnop\nnop\n";

/// A hart, and when it retires; the cycles of its instruction, and whether it is selected; what
/// becomes of the hart, and which harts start. A hart that sleeps is woken first.
type Turn = (u16, Tick, (u64, bool), Fate, &'static [HartId]);

/// A program, the program whose lines it has, a machine with the usual costs, and turns on it. The
/// first line is selected.
struct Row {
    source: &'static [u8],
    lines: &'static [u8],
    cores: u16,
    slice: u64,
    charge: Charge,
    seed: u64,
    turns: &'static [Turn],
}

const NONE: &[HartId] = &[];

const FIRST: &[HartId] = &[HartId(0)];

const SECOND: &[HartId] = &[HartId(1)];

const GOES: Fate = Fate::Goes;

/// By hand, from the costs of docs/FORMATS.md. An instruction takes 100 ticks for each cycle.
static ROWS: [Row; 7] = [
    // A clone finds no core free. sched_yield gives the core up, and so does an exit.
    Row {
        source: TWO,
        lines: TWO,
        cores: 1,
        slice: 100_000,
        charge: Charge::Nobody,
        seed: 0,
        turns: &[
            (0, 100, (1, true), GOES, NONE),
            (0, 200, (1, false), GOES, NONE),
            (0, 300, (1, false), GOES, NONE),
            (0, 400, (1, false), GOES, NONE),
            (0, 4400, (40, false), GOES, NONE),
            (0, 4500, (1, false), GOES, NONE),
            (0, 4600, (1, false), GOES, NONE),
            (0, 8600, (40, false), Fate::Waits, SECOND),
            (1, 8700, (1, false), GOES, NONE),
            (1, 8800, (1, false), GOES, NONE),
            (1, 12800, (40, false), Fate::Waits, FIRST),
            (0, 12900, (1, false), GOES, NONE),
            (0, 16900, (40, false), Fate::Leaves, SECOND),
            (1, 17000, (1, false), GOES, NONE),
            (1, 21000, (40, false), Fate::Ends(Ending::Exited(0)), NONE),
        ],
    },
    // With two cores it starts, and nobody waits for the core of the hart that yields.
    Row {
        source: TWO,
        lines: TWO,
        cores: 2,
        slice: 100_000,
        charge: Charge::Nobody,
        seed: 0,
        turns: &[
            (0, 100, (1, true), GOES, NONE),
            (0, 200, (1, false), GOES, NONE),
            (0, 300, (1, false), GOES, NONE),
            (0, 400, (1, false), GOES, NONE),
            (0, 4400, (40, false), GOES, SECOND),
            (0, 4500, (1, false), GOES, NONE),
            (1, 4500, (1, false), GOES, NONE),
            (0, 4600, (1, false), GOES, NONE),
            (1, 4600, (1, false), GOES, NONE),
            (0, 8600, (40, false), GOES, NONE),
            (1, 8600, (40, false), GOES, NONE),
        ],
    },
    // A slice of 41 cycles ends with the clone. That of hart 1 begins then, and ends at 8500.
    Row {
        source: TWO,
        lines: TWO,
        cores: 1,
        slice: 41,
        charge: Charge::Nobody,
        seed: 0,
        turns: &[
            (0, 100, (1, true), GOES, NONE),
            (0, 200, (1, false), GOES, NONE),
            (0, 300, (1, false), GOES, NONE),
            (0, 400, (1, false), GOES, NONE),
            (0, 4400, (40, false), Fate::Waits, SECOND),
            (1, 4500, (1, false), GOES, NONE),
            (1, 4600, (1, false), GOES, NONE),
            (1, 8600, (40, false), Fate::Waits, FIRST),
            (0, 8700, (1, false), GOES, NONE),
        ],
    },
    // A hart that wakes to a full core runs at once, and stands in line as it retires.
    Row {
        source: SLEEPER,
        lines: SLEEPER,
        cores: 1,
        slice: 100_000,
        charge: Charge::Nobody,
        seed: 0,
        turns: &[
            (0, 100, (1, true), GOES, NONE),
            (0, 200, (1, false), GOES, NONE),
            (0, 300, (1, false), GOES, NONE),
            (0, 400, (1, false), GOES, NONE),
            (0, 4400, (40, false), GOES, NONE),
            (0, 4500, (1, false), GOES, NONE),
            (0, 4600, (1, false), GOES, NONE),
            (0, 4700, (1, false), GOES, NONE),
            (0, 4800, (1, false), GOES, NONE),
            (0, 8800, (40, false), Fate::Sleeps(13800), SECOND),
            (1, 8900, (1, false), GOES, NONE),
            (1, 10900, (20, false), GOES, NONE),
            (1, 12900, (20, false), GOES, NONE),
            (1, 13000, (1, false), GOES, NONE),
            (0, 13900, (1, false), Fate::Waits, NONE),
            (1, 17000, (40, false), Fate::Leaves, FIRST),
            (0, 17100, (1, false), GOES, NONE),
            (0, 21100, (40, false), Fate::Ends(Ending::Exited(0)), NONE),
        ],
    },
    // Of code without lines each instruction is charged to the line that called it.
    Row {
        source: CALL,
        lines: THREE_LINES,
        cores: 256,
        slice: 100_000,
        charge: Charge::Last,
        seed: 0,
        turns: &[
            (0, 200, (2, true), GOES, NONE),
            (0, 300, (1, true), GOES, NONE),
            (0, 500, (2, true), GOES, NONE),
            (0, 600, (1, false), GOES, NONE),
            (0, 4600, (40, false), Fate::Ends(Ending::Exited(0)), NONE),
        ],
    },
    // On the usual machine it is charged to nobody.
    Row {
        source: CALL,
        lines: THREE_LINES,
        cores: 256,
        slice: 100_000,
        charge: Charge::Nobody,
        seed: 0,
        turns: &[
            (0, 200, (2, true), GOES, NONE),
            (0, 300, (1, false), GOES, NONE),
            (0, 500, (2, false), GOES, NONE),
            (0, 600, (1, false), GOES, NONE),
        ],
    },
    // By splitmix64 of this seed the seventh instruction of hart 0 costs twice.
    Row {
        source: TWO,
        lines: TWO,
        cores: 256,
        slice: 100_000,
        charge: Charge::Nobody,
        seed: 7,
        turns: &[
            (0, 100, (1, true), GOES, NONE),
            (0, 200, (1, false), GOES, NONE),
            (0, 300, (1, false), GOES, NONE),
            (0, 400, (1, false), GOES, NONE),
            (0, 4400, (40, false), GOES, SECOND),
            (0, 4500, (1, false), GOES, NONE),
            (0, 4700, (2, false), GOES, NONE),
            (0, 8700, (40, false), GOES, NONE),
            (0, 8800, (1, false), GOES, NONE),
            (0, 12800, (40, false), Fate::Leaves, NONE),
        ],
    },
];

/// No moment and no count of these rows is as great.
const MANY: u64 = 1 << 62;

/// The machine of a row, if it is within the limits.
fn timing_of(row: &Row) -> Option<Timing>
    ensures { IfSome result IsTiming }
{
    if row.cores < 1 || row.cores > 256 || row.slice < 1 || row.slice > 1_000_000_000 {
        return None;
    }
    Some(Timing {
        cores: row.cores,
        slice: row.slice,
        costs: Costs::usual(),
        charge: row.charge,
        seed: row.seed,
    })
}

/// Wakes a hart, if it sleeps. None if the hart was not made.
fn wake_sleeper(guest: &mut TimedGuest, hart: HartId) -> Option<()> {
    if u32::from(hart.0) >= guest.harts() || guest.on_cores() >= MANY {
        return None;
    }
    if guest.is_sleeping(hart) {
        guest.wake(hart);
    }
    Some(())
}

/// Checks a turn. None if its hart does not run.
fn check_turn<R: Abort>(
    rt: &R,
    guest: &mut TimedGuest,
    started: &mut HartList,
    turn: &Turn,
) -> Option<()> {
    let &(number, moment, cost, fate, others) = turn;
    let hart = HartId(number);
    wake_sleeper(guest, hart)?;
    if u32::from(number) >= guest.harts() || !guest.is_running(hart) {
        return None;
    }
    if moment >= MANY || guest.count(hart) >= MANY {
        return None;
    }
    let found = (
        guest.next_cycles(hart),
        guest.is_selected(hart, Some(LineId(0))),
    );
    check_equal(rt, (moment, found), (moment, cost));
    started.clear();
    let is_right = guest.retire(hart, moment, started) == fate && started.harts() == others;
    check_equal(rt, (moment, is_right), (moment, true));
    Some(())
}

fn check_turns<R: Abort>(rt: &R, guest: &mut TimedGuest, row: &Row) -> Option<()> {
    let mut started = HartList::new();
    for turn in row.turns {
        check_turn(rt, guest, &mut started, turn)?;
    }
    Some(())
}

/// A row, and the lines that its program has.
#[derive(Drop)]
struct OnLines<'r> {
    row: &'r Row,
    index: &'r LineIndex,
}

impl<'r> Check for OnLines<'r> {
    fn check<R: Abort>(&self, rt: &R, alloc: Global, program: &Program) -> Option<()> {
        let timing = timing_of(self.row)?;
        let made = TimedGuest::new(alloc, program.image, &[], 1, SMALL, self.index, timing);
        let mut guest = made.ok()?;
        let checked = check_turns(rt, &mut guest, self.row);
        // By a call, since a drop in place is proved part by part.
        drop(guest);
        checked
    }
}

impl Check for Row {
    fn check<R: Abort>(&self, rt: &R, alloc: Global, program: &Program) -> Option<()> {
        let row = OnLines {
            row: self,
            index: program.index,
        };
        check_source(rt, alloc, self.source, &row)
    }
}

#[test]
fn harts_have_their_turns_on_each_machine(rt: HostRuntime) {
    for (number, row) in ROWS.iter().enumerate() {
        let checked = check_source(&rt, rt.alloc(), row.lines, row);
        check_equal(&rt, (number, checked), (number, Some(())));
    }
}
